// Decodes frames worked out by hand from 01's layout and 02, A6. Prints a line for each: the message's fields, then its frame, encoded again into 36 bytes.
#![tactic(auto)]

mod show;

ghost use Rattle.std.specs.Prelude.{◌<◌};

use std::io;

fn whole(rt: &impl Print) -> io::Result<()> {
    // RENEW, GRANT with a value, without one and with the value 0, INVALIDATE, ACK, OFFER, DROPPED, BATCH, CLEARED
    show::frame(
        rt,
        b"\x01\x03\x05\x00\x04\x03\x02\x01\x00\x00\x00\x00\x0d\x0c\x0b\x0a\x14\x13\x12\x11\x00\x00\x00\x00\x00\x00\x00\x00\x00\x00\x00\x00",
    )?;
    show::frame(
        rt,
        b"\x02\xff\x1f\x01\x01\x00\x00\x00\xff\xff\xff\x7f\x02\x00\x00\x00\x03\x00\x00\x00\x3f\x42\x0f\x80\x08\x07\x06\x05\x04\x03\x02\x01",
    )?;
    show::frame(
        rt,
        b"\x02\x00\xc8\x00\xff\xff\xff\xff\x14\x00\x00\x00\x01\x00\x00\x00\x07\x00\x00\x00\x78\x00\x00\x00\x00\x00\x00\x00\x00\x00\x00\x00",
    )?;
    show::frame(
        rt,
        b"\x02\x0f\x00\x01\x06\x00\x00\x00\x00\x00\x00\x00\x01\x00\x00\x00\x07\x00\x00\x00\x00\x00\x00\x00\x00\x00\x00\x00\x00\x00\x00\x00",
    )?;
    show::frame(
        rt,
        b"\x03\x01\x02\x00\x00\x00\x00\x00\x00\x00\x00\x00\x04\x00\x00\x00\xff\xff\xff\xff\x00\x00\x00\x00\x00\x00\x00\x00\x00\x00\x00\x00",
    )?;
    show::frame(
        rt,
        b"\x04\x01\x02\x00\x00\x00\x00\x00\x00\x00\x00\x00\x04\x00\x00\x00\xfe\xff\xff\xff\x00\x00\x00\x00\x00\x00\x00\x00\x00\x00\x00\x00",
    )?;
    show::frame(
        rt,
        b"\x05\x09\x07\x00\x02\x01\x00\x00\x00\x00\x00\x00\x03\x00\x01\x00\x00\x00\x00\x00\x00\x00\x00\x00\x00\x00\x00\x00\x00\x00\x00\x00",
    )?;
    show::frame(
        rt,
        b"\x06\x09\xff\x00\x00\x00\x00\x01\x00\x00\x00\x00\x03\x00\x00\x00\x00\x00\x00\x00\x00\x00\x00\x00\x00\x00\x00\x00\x00\x00\x00\x00",
    )?;
    show::frame(
        rt,
        b"\x07\x04\x07\x00\x03\x01\x00\x00\x00\x00\x00\x00\x02\x00\x00\x00\x05\x00\x00\x08\x00\x00\x00\x00\x00\x00\x00\x00\x00\x00\x00\x00",
    )?;
    show::frame(
        rt,
        b"\x08\x0f\xff\x00\x00\x00\x00\x80\x00\x00\x00\x00\x00\x01\x00\x00\xff\xff\xff\xff\x00\x00\x00\x00\x00\x00\x00\x00\x00\x00\x00\x00",
    )
}

// Decodes a frame of this kind with one byte set; all its other bytes are 0.
fn changed(rt: &impl Print, kind: u8, at: usize, b: u8) -> io::Result<()>
    requires { at < 32 }
{
    let mut f = [0u8; 32];
    f[0] = kind;
    f[at] = b;
    show::frame(rt, &f)
}

// Decodes a BATCH of the empty set, then the lowest and the highest of the 32 bits alone.
fn sets(rt: &impl Print) -> io::Result<()> {
    changed(rt, 7, 16, 0)?;
    changed(rt, 7, 16, 1)?;
    changed(rt, 8, 19, 128)
}

fn refused(rt: &impl Print) -> io::Result<()> {
    show::frame(rt, b"")?;
    show::frame(
        rt,
        b"\x01\x00\x00\x00\x00\x00\x00\x00\x00\x00\x00\x00\x00\x00\x00\x00\x00\x00\x00\x00\x00\x00\x00\x00\x00\x00\x00\x00\x00\x00\x00",
    )?;
    show::frame(
        rt,
        b"\x01\x00\x00\x00\x00\x00\x00\x00\x00\x00\x00\x00\x00\x00\x00\x00\x00\x00\x00\x00\x00\x00\x00\x00\x00\x00\x00\x00\x00\x00\x00\x00\x00",
    )?;
    changed(rt, 0, 1, 0)?;
    changed(rt, 9, 1, 0)?;
    changed(rt, 10, 1, 0)?;
    changed(rt, 255, 1, 0)?;
    // value present: 2, set for a kind without a value, and unset with a value that is not 0
    changed(rt, 2, 3, 2)?;
    changed(rt, 1, 3, 1)?;
    changed(rt, 5, 3, 1)?;
    changed(rt, 7, 3, 1)?;
    changed(rt, 8, 3, 1)?;
    changed(rt, 2, 24, 1)?;
    changed(rt, 2, 31, 1)?;
    // a field that the kind lacks, not 0
    changed(rt, 1, 8, 1)?;
    changed(rt, 1, 23, 1)?;
    changed(rt, 1, 24, 1)?;
    changed(rt, 3, 4, 1)?;
    changed(rt, 4, 7, 1)?;
    changed(rt, 5, 16, 1)?;
    changed(rt, 5, 11, 1)?;
    changed(rt, 6, 20, 1)?;
    changed(rt, 6, 19, 128)?;
    changed(rt, 7, 8, 1)?;
    changed(rt, 7, 20, 1)?;
    changed(rt, 7, 31, 1)?;
    changed(rt, 8, 11, 1)?;
    changed(rt, 8, 23, 1)?;
    changed(rt, 8, 24, 1)
}

fn main(rt: HostRuntime) -> io::Result<()> {
    whole(&rt)?;
    sets(&rt)?;
    refused(&rt)?;
    show::short_output(&rt)
}
