// Restarting the server (01, "Steps" 8).
#![tactic(auto)]

ghost use Rattle.std.specs.Prelude.{◌≡◌, true, ℕ, ◌+◌, ◌≤◌, ◌<◌, get_or};
ghost use Rattle.laws.specs.Parts.{parts};
ghost use Rattle.laws.specs.Store.{store_each, always};
ghost use Rattle.protocol.specs.Setup.{in_range};
ghost use Rattle.protocol.specs.Server.{server_restarted};
ghost use Rattle.state_words.specs.Fields.{word_lengths, at, VOLUME_EPOCH, VOLUME_EXPIRY, GUARD};
ghost use Rattle.state_words.specs.View.{tables_of, numbers_of, records_of};
ghost use Rattle.server_restart.specs.Restart.{EpochsGrow, sessions_cleared, objects_cleared, holders_cleared};
ghost use Rattle.setup.specs.Limits.{VOLUMES};

use protocol::setup::Setup;
use setup::limits::{CLIENTS, SLOTS, VOLUMES};
use state_words::{CLIENT_OBJECTS, CLIENT_VOLUMES, Values, Words, pass, server};

// Adds 1 to the epochs of the first n volumes: "every epoch grows by 1".
fn grow_epochs(words: &mut Words, n: usize)
    requires n_bound { n ≤ VOLUMES }
    requires epochs_grow { EpochsGrow n (numbers_of words.old) }
    ensures { words.new ≡ store_each always (λ (v : ℕ). at VOLUME_EPOCH + v) (λ (v : ℕ). get_or (parts word_lengths words.old VOLUME_EPOCH) v 0 + 1) words.old n }
{
    for volume in 0..n {
        words[server::VOLUME_EPOCH + volume] += 1;
    }
}

// Sets every guard: "guard becomes VE". So no write completes while a volume lease from before the restart may be alive.
fn guard_expiries(words: &mut Words)
    ensures { words.new ≡ store_each always (λ (v : ℕ). at GUARD + v) (λ (v : ℕ). get_or (parts word_lengths words.old VOLUME_EXPIRY) v 0) words.old VOLUMES }
{
    words.copy_within(
        server::VOLUME_EXPIRY..server::VOLUME_EXPIRY + VOLUMES,
        server::GUARD,
    );
}

// Zeroes what the server knows of each client: highest number seen, volume leases, unreachable marks and offers ("its other fields become fresh"), notes and
// batches (02, A6: "A server restart loses notes.").
fn clear_sessions(words: &mut Words)
    ensures { words.new ≡ sessions_cleared words.old }
{
    pass::fill(&mut *words, server::SEEN, CLIENTS, 0);
    pass::fill(&mut *words, server::SESSION_EXPIRY, CLIENT_VOLUMES, 0);
    pass::fill(&mut *words, server::UNREACHABLE, CLIENT_VOLUMES, 0);
    pass::fill(&mut *words, server::OFFER, CLIENT_VOLUMES, 0);
    pass::fill(&mut *words, server::NOTES, CLIENT_VOLUMES, 0);
    pass::fill(&mut *words, server::BATCH, CLIENT_VOLUMES, 0);
}

// Zeroes each object's OE and ends its standing write: "values, versions .. remain; .. other fields become fresh".
fn clear_objects(words: &mut Words)
    ensures { words.new ≡ objects_cleared words.old }
{
    pass::fill(&mut *words, server::OBJECT_EXPIRY, SLOTS, 0);
    pass::fill(&mut *words, server::STANDING, SLOTS, 0);
    pass::fill(&mut *words, server::END, SLOTS, 0);
}

// Zeroes all object leases and whom the writes wait for ("its other fields become fresh").
fn clear_holders(words: &mut Words)
    ensures { words.new ≡ holders_cleared words.old }
{
    pass::fill(&mut *words, server::LEASE, CLIENT_OBJECTS, 0);
    pass::fill(&mut *words, server::WAITING, SLOTS, 0);
}

// Restarts the server, step 8: "values, versions, VE remain; every epoch grows by 1; guard becomes VE; its other fields become fresh. Messages remain."
pub fn restart(setup: Setup, words: &mut Words, values: &mut Values)
    requires setup_value { in_range setup ≡ true }
    requires epochs_grow { EpochsGrow setup.volumes (tables_of words.old values.old) }
    ensures values_after { tables_of words.new values.new ≡ server_restarted setup (tables_of words.old values.old) }
    ensures values_unchanged { records_of words.new values.new ≡ records_of words.old values.old }
{
    grow_epochs(&mut *words, setup.volumes as usize);
    guard_expiries(&mut *words);
    clear_sessions(&mut *words);
    clear_objects(&mut *words);
    clear_holders(&mut *words);
    pass::fill(&mut *values, server::PENDING, SLOTS, 0);
}
