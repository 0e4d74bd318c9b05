// Sending a message: appending it to the message list, in place.
#![tactic(auto)]

ghost use Rattle.std.specs.Prelude.{◌≡◌};
ghost use Rattle.protocol.specs.Server.{sent};
ghost use Rattle.state_words.specs.View.{tables_of, records_of};

use message_fields::Fields;
use protocol::message::Message;
use setup::limits::PLACES;
use state_words::{Values, Words, network};

// Appends a message to the list, which is "in sending order". "A message sent to a full list is lost."
pub fn push(words: &mut Words, values: &mut Values, message: Message)
    ensures values_after { tables_of words.new values.new ≡ sent (tables_of words.old values.old) message }
    ensures values_unchanged { records_of words.new values.new ≡ records_of words.old values.old }
{
    let n = words[network::LENGTH];
    if PLACES as u32 <= n {
        return;
    }
    let place = n as usize;
    let f = Fields::from(message);
    network_rows::row::store(words, place, network_rows::row::words_of(f));
    values[network::MESSAGE_VALUE + place] = f.value;
    words[network::LENGTH] = n + 1;
}
