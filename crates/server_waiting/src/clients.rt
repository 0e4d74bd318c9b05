// Which clients the standing write of an object waits for, as a set, and their leases on the object. Each function covers the first n clients.
ghost use Rattle.std.specs.Prelude.{◌≡◌, ℕ, ◌+◌, ◌≤◌, ◌<◌};
ghost use Rattle.laws.specs.Loop.{fold_from, any_from};
ghost use Rattle.laws.specs.Sets.{bit_at, set_of};
ghost use Rattle.laws.specs.Store.{store_each, always};
ghost use Rattle.protocol.specs.Tables.{by_object};
ghost use Rattle.state_words.specs.Fields.{at, LEASE};
ghost use Rattle.server_marks.specs.SessionWords.{sessions_of, OnlySessions};
ghost use Rattle.server_waiting.specs.Waiting.{awaited_in, mark_if_in, waits_in};
ghost use Rattle.setup.specs.Limits.{CLIENTS, SLOTS, VOLUMES};

use lease_tests::time;
use setup::limits::{SLOTS, VOLUMES};
use state_words::{Words, network, server};

// Zeroes each client's lease on the object, as completing "clears every dash's server lease on that object".
pub fn clear_leases(words: &mut Words, object: usize, n: usize)
    requires object_bound { object < SLOTS }
    requires n_bound { n ≤ CLIENTS }
    ensures { words.new ≡ store_each always (λ (d : ℕ). at LEASE + by_object d object) (λ (d : ℕ). 0) words.old n }
{
    for client in 0..n {
        words[server::LEASE + (client * SLOTS + object)] = 0;
    }
}

// Marks the clients that a write still waits for as unreachable in the volume: "marks still waiting dashes unreachable".
pub fn mark_waiting(words: &mut Words, waiting: u32, volume: usize, n: usize)
    requires volume_bound { volume < VOLUMES }
    requires n_bound { n ≤ CLIENTS }
    ensures words_after { sessions_of words.new ≡ fold_from (mark_if_in waiting volume) (sessions_of words.old) 0 n }
    ensures only_sessions { OnlySessions words.old words.new }
{
    if waiting == 0 {
        return;
    }
    for client in 0..n {
        if sets::has(waiting, client) {
            server_marks::mark(&mut *words, client, volume);
        }
    }
}

// Returns whether the object's write waits for any client.
pub fn waited(words: &Words, object: usize, n: usize) -> bool
    requires object_bound { object < SLOTS }
    requires n_bound { n ≤ CLIENTS }
    ensures { result ≡ any_from (bit_at (awaited_in words.now object)) 0 n }
{
    sets::next(words[server::WAITING + object], 0, n) < n
}

// Returns the clients that a new write of the object waits for (step 4): those with both leases alive. 02, A6: "a reachable dash with a live object lease and
// a dead volume lease is no longer waited for". `volume` is the object's volume.
pub fn awaited(words: &Words, volume: usize, object: usize, n: usize) -> u32
    requires volume_bound { volume < VOLUMES }
    requires object_bound { object < SLOTS }
    requires n_bound { n ≤ CLIENTS }
    ensures { result ≡ set_of (waits_in words.now volume object) n }
{
    let mut waiting = 0;
    for client in 0..n {
        let yes = time::waits(
            words[network::CLOCK],
            words[server::LEASE + (client * SLOTS + object)],
            words[server::SESSION_EXPIRY + (client * VOLUMES + volume)],
        );
        waiting = sets::with_if(waiting, client, yes);
    }
    waiting
}
