// The latest end of a write, from the leases of the clients that it waits for.
ghost use Rattle.std.specs.Prelude.{◌≡◌, ◌≤◌, ◌<◌};
ghost use Rattle.laws.specs.Greatest.{greatest};
ghost use Rattle.laws.specs.Sets.{bit_at};
ghost use Rattle.server_waiting.specs.Waiting.{leased_in};
ghost use Rattle.setup.specs.Limits.{CLIENTS, SLOTS, VOLUMES};

use lease_tests::time;
use setup::limits::{SLOTS, VOLUMES};
use state_words::{Words, server};

// Returns the latest end (02, A3): the greatest of `least` and, "over the waiting dashes, the lesser of that dash's volume and object expiry".
pub fn latest_end(
    words: &Words,
    waiting: u32,
    volume: usize,
    object: usize,
    least: u32,
    n: usize,
) -> u32
    requires volume_bound { volume < VOLUMES }
    requires object_bound { object < SLOTS }
    requires n_bound { n ≤ CLIENTS }
    ensures { result ≡ greatest (bit_at waiting) (leased_in words.now volume object) least n }
{
    if waiting == 0 {
        return least;
    }
    let mut end = least;
    for client in 0..n {
        end = time::outlast(
            end,
            sets::has(waiting, client),
            words[server::SESSION_EXPIRY + (client * VOLUMES + volume)],
            words[server::LEASE + (client * SLOTS + object)],
        );
    }
    end
}
