// Accepting a write at the server (01, "Steps" 4, with the latest end of 02, A3).
ghost use Rattle.std.specs.Prelude.{◌≡◌, true, ◌≤◌, ◌<◌};
ghost use Rattle.protocol.specs.Setup.{in_range};
ghost use Rattle.protocol.specs.Sound.{clock_limit};
ghost use Rattle.protocol.specs.Tables.{version_at};
ghost use Rattle.protocol.specs.Writes.{begun, write_staged, settled};
ghost use Rattle.setup.specs.Limits.{largest};
ghost use Rattle.state_words.specs.View.{tables_of, records_of};

use crate::invalidates::notify;
use lease_tests::place;
use protocol::setup::Setup;
use server_waiting::clients;
use server_waiting::end::latest_end;
use state_words::{Values, Words, network, server};

// Opens the write of `value`: stores which clients it waits for and its latest end (02, A3), "the greatest of clock + m, guard, and, over the waiting
// dashes, ..", and notes it for those whose invalidation is put off (02, A6).
fn begin(setup: Setup, words: &mut Words, values: &mut Values, object: usize, value: u64)
    requires setup_value { in_range setup ≡ true }
    requires values_bound { (tables_of words.old values.old).clock ≤ clock_limit }
    requires object_lt_objects { object < setup.objects }
    ensures values_after { tables_of words.new values.new ≡ begun setup (tables_of words.old values.old) object value }
    ensures values_unchanged { records_of words.new values.new ≡ records_of words.old values.old }
{
    let volume = place::volume_of(setup, object);
    let n = setup.clients as usize;
    let waiting = clients::awaited(&*words, volume, object, n);
    let least = (words[network::CLOCK] + setup.m).max(words[server::GUARD + volume]);
    let end = latest_end(&*words, waiting, volume, object, least, n);
    server_delays::delay(setup, &mut *words, object);
    words[server::WAITING + object] = waiting;
    words[server::STANDING + object] = 1;
    words[server::END + object] = end;
    values[server::PENDING + object] = value;
}

// Accepts a write (step 4): opens it, sends each INVALIDATE and completes it "if none waits and the clock is at or past guard". Returns the number of
// writes completed.
pub fn accept_write(
    setup: Setup,
    words: &mut Words,
    values: &mut Values,
    object: usize,
    value: u64,
) -> u32
    requires setup_value { in_range setup ≡ true }
    requires values_bound { (tables_of words.old values.old).clock ≤ clock_limit }
    requires object_lt_objects { object < setup.objects }
    requires object_bound { version_at (tables_of words.old values.old) object < largest }
    ensures values_after { record { count = result; tables = tables_of words.new values.new } ≡ settled setup (write_staged setup (tables_of words.old values.old) object value) }
    ensures values_unchanged { records_of words.new values.new ≡ records_of words.old values.old }
{
    begin(setup, &mut *words, &mut *values, object, value);
    notify(setup, &mut *words, &mut *values, object);
    server_complete::completion::settle_one(setup, &mut *words, &mut *values, object)
}
