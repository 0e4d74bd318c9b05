ghost use Rattle.std.specs.Prelude.{◌≡◌, ◌<◌};
ghost use Rattle.laws.specs.Parts.{parts};
ghost use Rattle.protocol.specs.declared.message.Kind.TheVariants.{Renew};
ghost use Rattle.protocol.specs.Messages.{blank, message, message_at};
ghost use Rattle.state_words.specs.Fields.{word_lengths, value_lengths, MESSAGES, MESSAGE_VALUE};
ghost use Rattle.state_words.specs.LiveRows.{Live};
ghost use Rattle.state_words.specs.Rows.{stray, message_of};
ghost use Rattle.state_words.specs.View.{tables_of};
ghost use Rattle.setup.specs.Limits.{PLACES};

use protocol::message::{Kind, Message};
use setup::limits::PLACES;
use state_words::{Values, Words, network};

// Returns a RENEW of the client with all other fields 0.
fn empty_renewal(client: u8) -> Message
    ensures { result ≡ message client (Renew 0 0 0 0) }
{
    Message {
        client,
        kind: Kind::Renew {
            object: 0,
            number: 0,
            epoch: 0,
            version: 0,
        },
    }
}

// Returns the message that an unused place reads as.
fn blank() -> Message
    ensures { result ≡ blank }
{
    empty_renewal(0)
}

// Returns what a malformed row reads as. No setup has client 255, so question 1 refuses the tables.
fn stray() -> Message
    ensures { result ≡ stray }
{
    empty_renewal(255)
}

// Returns the message in a row, or `stray` if the row does not encode one.
fn message_of(words: &Words, values: &Values, place: usize) -> Message
    requires { place < PLACES }
    ensures { result ≡ message_of (parts word_lengths words.now MESSAGES) (parts value_lengths values.now MESSAGE_VALUE) place }
{
    if network_rows::row::narrow(words, place) {
        return Message::try_from(network_rows::row::load(words, values, place)).unwrap_or(stray());
    }
    stray()
}

// Returns the message at a place; past the end of the list, a blank one.
pub fn message_at(words: &Words, values: &Values, place: usize) -> Message
    ensures { result ≡ message_at (tables_of words.now values.now).queue place }
{
    if PLACES <= place {
        return blank();
    }
    if words[network::LENGTH] <= place as u32 {
        return blank();
    }
    message_of(words, values, place)
}

// Returns the message at a live place. Question 1 has already found its row well-formed, so the row is not checked again.
pub fn live_message(words: &Words, values: &Values, place: usize) -> Message
    requires { Live words.now values.now place }
    ensures { result ≡ message_at (tables_of words.now values.now).queue place }
{
    message_fields::message_in(network_rows::row::load(words, values, place))
}
