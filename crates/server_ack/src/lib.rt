// ACK received at the server (01, "Messages received").
#![tactic(auto)]

ghost use Rattle.std.specs.Prelude.{◌≡◌, true, ◌<◌};
ghost use Rattle.protocol.specs.Setup.{in_range};
ghost use Rattle.protocol.specs.SoundLaws.{Growing};
ghost use Rattle.protocol.specs.Writes.{settled};
ghost use Rattle.protocol.specs.Server.{ack_taken, ack_staged};
ghost use Rattle.state_words.specs.View.{tables_of, numbers_of, records_of};

use lease_tests::place;
use protocol::setup::Setup;
use setup::limits::SLOTS;
use state_words::{Values, Words, server};

// Returns whether the ACK counts: it "needs a standing write, its epoch and its new version".
fn ack_taken(setup: Setup, words: &Words, object: usize, epoch: u32, version: u32) -> bool
    requires setup_value { in_range setup ≡ true }
    requires growing { Growing setup (numbers_of words.now).objects }
    requires object_lt_objects { object < setup.objects }
    ensures { result ≡ ack_taken setup (numbers_of words.now) object epoch version }
{
    let volume = place::volume_of(setup, object);
    if words[server::STANDING + object] != 0 {
        let same = epoch == words[server::VOLUME_EPOCH + volume];
        same & (version == words[server::VERSION + object] + 1)
    } else {
        false
    }
}

// Receives a client's ACK for an object: "Clear that dash's object lease and its waiting; complete if none waits and the clock is at or past guard."
// An ACK that does not count changes nothing. Returns the number of writes completed.
pub fn receive_ack(
    setup: Setup,
    words: &mut Words,
    values: &mut Values,
    client: usize,
    object: usize,
    epoch: u32,
    version: u32,
) -> u32
    requires setup_value { in_range setup ≡ true }
    requires growing { Growing setup (tables_of words.old values.old).objects }
    requires client_lt_clients { client < setup.clients }
    requires object_lt_objects { object < setup.objects }
    ensures values_after { record { count = result; tables = tables_of words.new values.new } ≡ settled setup (ack_staged setup (tables_of words.old values.old) client object epoch version) }
    ensures values_unchanged { records_of words.new values.new ≡ records_of words.old values.old }
{
    if ack_taken(setup, &*words, object, epoch, version) {
        words[server::WAITING + object] = sets::without(words[server::WAITING + object], client);
        words[server::LEASE + (client * SLOTS + object)] = 0;
        server_complete::completion::settle_one(setup, &mut *words, &mut *values, object)
    } else {
        0
    }
}
