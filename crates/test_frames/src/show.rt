use message_fields::Fields;
use protocol::message::{Kind, Message};
use protocol::refusal::Refusal;
use std::io;
use test_printing::{bytes, end, last, number};

fn fields(rt: &impl Print, f: Fields) -> io::Result<()> {
    print!(rt;
        "{} {} {} {} {} {} {} {} {} {} ",
        f.kind,
        f.client,
        f.object,
        f.present,
        f.number,
        f.volume_expiry,
        f.epoch,
        f.version,
        f.object_expiry,
        f.value
    )
}

fn encoded(rt: &impl Print, r: Result<(), Refusal>) -> io::Result<()> {
    match r {
        Ok(()) => number(rt, 0),
        Err(refusal) => number(rt, u64::from(u8::from(refusal))),
    }
}

// Prints a message's fields and its frame, encoded in an output of 36 bytes.
fn again(rt: &impl Print, m: Message) -> io::Result<()> {
    fields(rt, Fields::from(m))?;
    let mut out = [238u8; 36];
    encoded(rt, frame::encode(m, &mut out))?;
    bytes(rt, &out)?;
    end(rt)
}

// Prints the message that the bytes decode to, or the refusal's number, 8.
pub fn frame(rt: &impl Print, s: &[u8]) -> io::Result<()> {
    match frame::decode(s) {
        Ok(m) => again(rt, m),
        Err(refusal) => last(rt, u64::from(u8::from(refusal))),
    }
}

// Encodes into an output of 31 bytes, which is refused and left unchanged.
pub fn short_output(rt: &impl Print) -> io::Result<()> {
    let kind = Kind::Ack {
        object: 1,
        epoch: 2,
        version: 3,
    };
    let mut out = [238u8; 31];
    encoded(rt, frame::encode(Message { client: 0, kind }, &mut out))?;
    bytes(rt, &out)?;
    end(rt)
}
