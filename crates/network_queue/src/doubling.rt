// Doubling a message of the list, in place (01, "Steps" 7).
ghost use Rattle.std.specs.Prelude.{◌≡◌};
ghost use Rattle.protocol.specs.Messages.{doubled};
ghost use Rattle.protocol.specs.Tables.{with_queue};
ghost use Rattle.state_words.specs.LiveRows.{Live};
ghost use Rattle.state_words.specs.View.{tables_of, records_of};

use crate::list::live_message;
use network_send::push;
use state_words::{Values, Words};

// Appends a copy of the message at a live place: "send a copy, to the end". A full list stays as it is.
pub fn double(words: &mut Words, values: &mut Values, place: usize)
    requires { Live words.old values.old place }
    ensures values_after { tables_of words.new values.new ≡ with_queue (tables_of words.old values.old) (doubled (tables_of words.old values.old).queue place) }
    ensures values_unchanged { records_of words.new values.new ≡ records_of words.old values.old }
{
    let message = live_message(&*words, &*values, place);
    push(words, values, message);
}
