// Encodes messages as frames of 32 bytes and decodes them (01, "Frame, run file and listing").
#![tactic(auto)]

ghost use Rattle.frame.specs.Frame.{Decodes, Encodes};

use frame_places::FRAME;
use message_fields::Fields;
use protocol::message::Message;
use protocol::refusal::Refusal;

// Returns the message of a frame. Takes any bytes, and refuses those that are not a "Frame of 32 bytes, kind, value present and zero fields right". "Dash
// and object may be any byte here. Fields a kind lacks are 0".
pub fn decode(bytes: &[u8]) -> Result<Message, Refusal>
    ensures { Decodes bytes.now result }
{
    if bytes.len() != FRAME {
        return Err(Refusal::Frame);
    }
    Message::try_from(frame_places::read(bytes))
}

// Writes the message's frame to the first 32 bytes of the output: "Bytes past the frame keep what they held." Refuses a shorter output without changing
// it: "a lent output long enough? 8."
pub fn encode(message: Message, out: &mut [u8]) -> Result<(), Refusal>
    ensures { Encodes message out.old out.new result }
{
    if out.len() < FRAME {
        return Err(Refusal::Room);
    }
    frame_places::write(out, Fields::from(message));
    Ok(())
}
