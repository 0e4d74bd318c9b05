// Completing standing writes in object order, after a clock step or a DROPPED.
ghost use Rattle.std.specs.Prelude.{◌≡◌, true};
ghost use Rattle.protocol.specs.Setup.{in_range};
ghost use Rattle.protocol.specs.SoundLaws.{Growing};
ghost use Rattle.protocol.specs.Writes.{settled, clock_staged};
ghost use Rattle.state_words.specs.View.{tables_of, records_of};
ghost use Rattle.server_due.specs.Triggers.{trigger_staged};

use crate::completion::complete;
use protocol::setup::Setup;
use server_due::{Trigger, triggered};
use state_words::{Values, Words, network};

// Completes the writes that the trigger selects: "In object order, complete each standing write". Returns how many completed.
pub fn settle(setup: Setup, trigger: Trigger, words: &mut Words, values: &mut Values) -> u32
    requires setup_value { in_range setup ≡ true }
    requires growing { Growing setup (tables_of words.old values.old).objects }
    ensures values_after { record { count = result; tables = tables_of words.new values.new } ≡ settled setup (trigger_staged setup trigger (tables_of words.old values.old)) }
    ensures values_unchanged { records_of words.new values.new ≡ records_of words.old values.old }
{
    let mut count = 0;
    for object in 0..setup.objects as usize {
        if triggered(setup, trigger, &*words, object) {
            complete(setup, &mut *words, &mut *values, object);
            count += 1;
        }
    }
    count
}

// Performs step 1, "Clock T: set the clock": notes age (02, A6), and the writes that are then due complete. Returns how many completed.
pub fn pass_time(setup: Setup, words: &mut Words, values: &mut Values, clock: u32) -> u32
    requires setup_value { in_range setup ≡ true }
    requires growing { Growing setup (tables_of words.old values.old).objects }
    ensures values_after { record { count = result; tables = tables_of words.new values.new } ≡ settled setup (clock_staged setup (tables_of words.old values.old) clock) }
    ensures values_unchanged { records_of words.new values.new ≡ records_of words.old values.old }
{
    words[network::CLOCK] = clock;
    server_ageing::age(setup, &mut *words, clock);
    settle(setup, Trigger::Clock, &mut *words, &mut *values)
}
