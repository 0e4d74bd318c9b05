// Prints for the test programs: decimal numbers, each followed by a space or, with `last`, by a newline; bytes in hexadecimal; and steps.
#![tactic(auto)]

use protocol::step::Step;
use std::io;

pub fn end(rt: &impl Print) -> io::Result<()> {
    println!(rt)
}

pub fn number(rt: &impl Print, n: u64) -> io::Result<()> {
    print!(rt; "{n} ")
}

pub fn last(rt: &impl Print, n: u64) -> io::Result<()> {
    println!(rt; "{n}")
}

pub fn bytes(rt: &impl Print, s: &[u8]) -> io::Result<()> {
    for b in s {
        print!(rt; "{b:02x}")?;
    }
    Ok(())
}

pub fn step(rt: &impl Print, x: Step) -> io::Result<()> {
    println!(rt;
        "{} {} {} {} {} {}",
        x.kind, x.client, x.object, x.place, x.clock, x.value
    )
}
