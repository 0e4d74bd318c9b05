// Sending an INVALIDATE to each client that a write waits for (01, "Steps" 4).
ghost use Rattle.std.specs.Prelude.{◌≡◌, true, ◌<◌};
ghost use Rattle.protocol.specs.Setup.{in_range};
ghost use Rattle.protocol.specs.Tables.{version_at, with_queue};
ghost use Rattle.protocol.specs.Writes.{notified};
ghost use Rattle.state_words.specs.View.{tables_of, numbers_of, records_of};
ghost use Rattle.server_write.specs.Invalidates.{invalidate_kind};
ghost use Rattle.setup.specs.Limits.{largest};

use lease_tests::place;
use network_send::push;
use protocol::message::{Kind, Message};
use protocol::setup::Setup;
use sets::members;
use state_words::{Values, Words, server};

// Returns the kind of the INVALIDATE for an object's standing write, with its epoch and the version that the object will have once the write is complete.
pub fn invalidation(setup: Setup, words: &Words, object: usize) -> Kind
    requires setup_value { in_range setup ≡ true }
    requires object_lt_objects { object < setup.objects }
    requires object_bound { version_at (numbers_of words.now) object < largest }
    ensures { result ≡ invalidate_kind setup (numbers_of words.now) object }
{
    let volume = place::volume_of(setup, object);
    Kind::Invalidate {
        object: object as u8,
        epoch: words[server::VOLUME_EPOCH + volume],
        version: words[server::VERSION + object] + 1,
    }
}

// Sends an INVALIDATE to each client that the object's write waits for: "Send each INVALIDATE in dash order."
pub fn notify(setup: Setup, words: &mut Words, values: &mut Values, object: usize)
    requires setup_value { in_range setup ≡ true }
    requires object_lt_objects { object < setup.objects }
    requires object_bound { version_at (tables_of words.old values.old) object < largest }
    ensures values_after { tables_of words.new values.new ≡ with_queue (tables_of words.old values.old) (notified setup (tables_of words.old values.old) object) }
    ensures values_unchanged { records_of words.new values.new ≡ records_of words.old values.old }
{
    let kind = invalidation(setup, &*words, object);
    let waiting = words[server::WAITING + object];
    for client in members::below(waiting, setup.clients as usize) {
        let client = client as u8;
        push(&mut *words, &mut *values, Message { client, kind });
    }
}
