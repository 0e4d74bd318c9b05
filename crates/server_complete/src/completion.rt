// Completing the standing write of one object (01, "Steps"): at once, or only if it is ready.
ghost use Rattle.std.specs.Prelude.{◌≡◌, true, ◌<◌};
ghost use Rattle.protocol.specs.Setup.{in_range};
ghost use Rattle.protocol.specs.Tables.{version_at, with_objects};
ghost use Rattle.protocol.specs.Writes.{posted, completed, settled};
ghost use Rattle.state_words.specs.View.{tables_of, records_of};
ghost use Rattle.server_due.specs.Triggers.{one_staged};
ghost use Rattle.setup.specs.Limits.{largest, SLOTS};

use lease_tests::place;
use protocol::setup::Setup;
use server_waiting::clients;
use state_words::{Values, Words, server};

// Updates the object's own fields: "stores the value, adds 1 to the version, .. and ends the standing write".
fn post(words: &mut Words, values: &mut Values, object: usize)
    requires object_bound { object < SLOTS }
    requires object_bound_2 { version_at (tables_of words.old values.old) object < largest }
    ensures values_after { tables_of words.new values.new ≡ with_objects (tables_of words.old values.old) (posted (tables_of words.old values.old) object) }
    ensures values_unchanged { records_of words.new values.new ≡ records_of words.old values.old }
{
    values[server::VALUE + object] = values[server::PENDING + object];
    values[server::PENDING + object] = 0;
    words[server::VERSION + object] = words[server::VERSION + object] + 1;
    words[server::STANDING + object] = 0;
    words[server::END + object] = 0;
}

// Completes the object's write: "Completing stores the value, adds 1 to the version, marks still waiting dashes unreachable, clears every dash's server
// lease on that object and ends the standing write."
pub fn complete(setup: Setup, words: &mut Words, values: &mut Values, object: usize)
    requires setup_value { in_range setup ≡ true }
    requires object_lt_objects { object < setup.objects }
    requires object_bound { version_at (tables_of words.old values.old) object < largest }
    ensures values_after { tables_of words.new values.new ≡ completed setup (tables_of words.old values.old) object }
    ensures values_unchanged { records_of words.new values.new ≡ records_of words.old values.old }
{
    let volume = place::volume_of(setup, object);
    let n = setup.clients as usize;
    let waiting = words[server::WAITING + object];
    clients::mark_waiting(&mut *words, waiting, volume, n);
    clients::clear_leases(&mut *words, object, n);
    words[server::WAITING + object] = 0;
    post(&mut *words, &mut *values, object);
}

// Completes the object's write, if it is ready, after a write or an ACK: "complete if none waits and the clock is at or past guard".
// Returns the number of writes completed.
pub fn settle_one(setup: Setup, words: &mut Words, values: &mut Values, object: usize) -> u32
    requires setup_value { in_range setup ≡ true }
    requires object_lt_objects { object < setup.objects }
    requires object_bound { version_at (tables_of words.old values.old) object < largest }
    ensures values_after { record { count = result; tables = tables_of words.new values.new } ≡ settled setup (one_staged setup (tables_of words.old values.old) object) }
    ensures values_unchanged { records_of words.new values.new ≡ records_of words.old values.old }
{
    if server_due::ready(setup, &*words, object) {
        complete(setup, &mut *words, &mut *values, object);
        return 1;
    }
    0
}
