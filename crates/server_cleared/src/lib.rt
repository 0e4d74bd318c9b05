// CLEARED received at the server (02, A6).
#![tactic(auto)]

ghost use Rattle.std.specs.Prelude.{List, ◌≡◌, true, ℕ, ◌<◌};
ghost use Rattle.protocol.specs.Setup.{in_range};
ghost use Rattle.protocol.specs.Server.{clear_taken, notes_cleared};
ghost use Rattle.setup.specs.Limits.{CLIENTS, VOLUMES};
ghost use Rattle.state_words.specs.View.{tables_of, numbers_of, records_of};

use protocol::setup::Setup;
use setup::limits::VOLUMES;
use state_words::{Words, server};

// Returns whether the CLEARED answers the batch last sent: "only if number and epoch match the batch last sent". 0 is none.
// Kept: `clear_taken`, and `drop_taken` of DROPPED: one function for both would take the field as a parameter, with a bound on it, and be no shorter.
fn clear_taken(words: &Words, client: usize, volume: usize, number: u32, epoch: u32) -> bool
    requires client_bound { client < CLIENTS }
    requires volume_bound { volume < VOLUMES }
    ensures { result ≡ clear_taken (numbers_of words.now) client volume number epoch }
{
    let batch = words[server::BATCH + (client * VOLUMES + volume)];
    (epoch == words[server::VOLUME_EPOCH + volume]) & ((number != 0) & (number == batch))
}

// Receives a client's CLEARED: "The server drops the notes and leases of the set in CLEARED only if number and epoch match the batch last sent; .. an accepted
// CLEARED ends it." It completes nothing.
// Kept: seven parameters, since nothing else is handed these fields: a struct of them would be taken apart at once.
pub fn receive_cleared(
    setup: Setup,
    words: &mut Words,
    client: usize,
    volume: usize,
    number: u32,
    epoch: u32,
    set: u32,
)
    requires setup_value { in_range setup ≡ true }
    requires client_lt_clients { client < setup.clients }
    requires volume_lt_volumes { volume < setup.volumes }
    ensures by_index { (x : List ℕ) → tables_of words.new x ≡ notes_cleared setup (tables_of words.old x) client volume number epoch set }
    ensures by_index_2 { (x : List ℕ) → records_of words.new x ≡ records_of words.old x }
{
    if clear_taken(&*words, client, volume, number, epoch) {
        let i = client * VOLUMES + volume;
        let notes = sets::less(words[server::NOTES + i], set);
        words[server::NOTES + i] = notes;
        words[server::BATCH + i] = 0;
        let objects = setup.objects as usize;
        server_leases::clear(&mut *words, client, objects, |object| {
            sets::has(set, object)
        });
    }
}
