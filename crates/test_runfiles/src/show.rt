ghost use Rattle.std.specs.Prelude.{◌≡◌};
ghost use Rattle.file_shape.specs.Places.{trailer_place};

use protocol::setup::Setup;
use std::io;
use test_printing::{bytes, last, number, step};

// Prints the first and the last volume byte.
fn volumes(rt: &impl Print, setup: Setup) -> io::Result<()> {
    let first = setup.volume[0];
    let last = setup.volume[27];
    print!(rt; "{first} {last} ")
}

fn setup(rt: &impl Print, setup: Setup) -> io::Result<()> {
    print!(rt;
        "{} {} {} {} {} {} ",
        setup.clients, setup.volumes, setup.objects, setup.tv, setup.t, setup.m
    )?;
    volumes(rt, setup)?;
    print!(rt; "{} ", setup.delay)
}

// Returns the bytes from `from` up to `to`, or none if the file does not have them.
pub fn cut(f: &[u8], from: usize, to: usize) -> &[u8] {
    if from <= to {
        if to <= f.len() {
            return &f[from..to];
        }
    }
    &f[..0]
}

// Prints the note's length, and its bytes in brackets.
fn note(rt: &impl Print, s: &[u8]) -> io::Result<()> {
    print!(rt; "{} [", s.len())?;
    bytes(rt, s)?;
    print!(rt; "] ")
}

// Prints what is read of a file: 0 and its contents, or the refusal's number and zeros.
pub fn file(rt: &impl Print, f: &[u8]) -> io::Result<()> {
    match file_reader::read(f) {
        Ok(r) => {
            number(rt, 0)?;
            note(rt, file_reader::note(f))?;
            setup(rt, r.setup)?;
            number(rt, u64::from(r.count))?;
            last(rt, r.first as u64)
        }
        Err(refusal) => {
            number(rt, u64::from(u8::from(refusal)))?;
            note(rt, file_reader::note(f))?;
            print!(rt; "0 0 0 0 0 0 0 0 0 ")?;
            number(rt, 0)?;
            last(rt, 0)
        }
    }
}

// Prints what is read at the trailer's place, where no record fits.
fn after_last(rt: &impl Print, f: &[u8], place: usize) -> io::Result<()>
    requires { place ≡ trailer_place f.now }
{
    step(rt, file_reader::step_at(f, place))
}

// Goes through all records of a file. Prints the first and the last step, and what is read after them, where the trailer begins.
pub fn steps(rt: &impl Print, f: &[u8]) -> io::Result<()> {
    let Ok(r) = file_reader::read(f) else {
        return Ok(());
    };
    let mut place = r.first;
    for k in 0..r.count {
        let x = file_reader::step_at(f, place);
        place += 16;
        if k == 0 || k + 1 == r.count {
            step(rt, x)?;
        }
    }
    after_last(rt, f, place)
}
