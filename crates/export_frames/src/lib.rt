// Encodes and decodes frames for callers from other languages, which have a message's fields as ten numbers. Each call returns 0 or the refusal's
// number in 01; a refused call changes nothing.
#![tactic(auto)]

pub mod numbers;

ghost use Rattle.std.specs.Prelude.{◌≡◌};
ghost use Rattle.protocol.specs.Refusals.{refused_by};
ghost use Rattle.export_frames.specs.Calls.{EncodesFields, DecodesFields};
ghost use Rattle.export_frames.specs.Numbers.{fields_from};

use message_fields::Fields;
use protocol::message::Message;
use protocol::refusal::Refusal;

// Returns 0, or the refusal's number in 01.
fn number(answer: Result<(), Refusal>) -> u8
    ensures { result ≡ refused_by answer }
{
    match answer {
        Ok(()) => 0,
        Err(refusal) => u8::from(refusal),
    }
}

fn encode_fields(f: Fields, out: &mut [u8]) -> Result<(), Refusal>
    ensures { EncodesFields f out.old out.new (refused_by result) }
{
    let message = Message::try_from(f)?;
    frame::encode(message, out)
}

// Writes the frame of the message with these fields, which are in the frame's order; those that its kind lacks must be 0. Returns 8 for fields that no
// message has or an output that is too short.
pub fn encode(head: &[u8; 4], numbers: &[u32; 5], value: u64, out: &mut [u8]) -> u8
    ensures { EncodesFields (fields_from head.now numbers.now value) out.old out.new result }
{
    let f = crate::numbers::fields_from(head, numbers, value);
    number(encode_fields(f, out))
}

fn decode_fields(frame: &[u8], fields: &mut [u64]) -> Result<(), Refusal>
    ensures { DecodesFields frame.now fields.old fields.new (refused_by result) }
{
    if fields.len() < 10 {
        return Err(Refusal::Room);
    }
    let message = frame::decode(frame)?;
    crate::numbers::store(fields, Fields::from(message));
    Ok(())
}

// Stores the ten fields of a frame's message, in the frame's order. Returns 8 for bytes that are not a frame or room for fewer than ten numbers: "a lent
// output long enough? 8."
pub fn decode(frame: &[u8], fields: &mut [u64]) -> u8
    ensures { DecodesFields frame.now fields.old fields.new result }
{
    number(decode_fields(frame, fields))
}
