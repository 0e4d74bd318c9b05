// 02, A5: prints the draws and the steps of three seeds, a small run file, and refusals. The expected output was worked out apart from the code.
#![tactic(auto)]

ghost use Rattle.std.specs.Prelude.{◌≤◌};

use protocol::refusal::Refusal;
use protocol::setup::Setup;
use protocol::step::Step;
use std::io;
use test_printing::{bytes, end, last, number};

// Returns a setup of 3 clients and 2 volumes with two objects each; tv 10, t 100, m 3, delay 258.
fn setup() -> Setup {
    let mut volume = [0u8; 28];
    volume[2] = 1;
    volume[3] = 1;
    Setup {
        clients: 3,
        volumes: 2,
        objects: 4,
        tv: 10,
        t: 100,
        m: 3,
        volume,
        delay: 258,
    }
}

// Prints the first 20 draws of a seed in a line.
fn twenty_draws(rt: &impl Print, seed: u32) -> io::Result<()> {
    let mut last = seed;
    for _ in 0..20 {
        last = workload::draws::next(last);
        number(rt, last as u64)?;
    }
    end(rt)
}

// Prints the first 10 steps of a seed: kind, client, object, place, clock, value.
fn ten_steps(rt: &impl Print, seed: u32) -> io::Result<()> {
    let steps = match workload::steps(seed, setup(), 10) {
        Ok(steps) => steps,
        Err(refusal) => return last(rt, u64::from(u8::from(refusal))),
    };
    for step in steps.as_slice() {
        test_printing::step(rt, *step)?;
    }
    Ok(())
}

// Prints the refusal's number, or 0 and the number of bytes written.
fn report(rt: &impl Print, r: Result<usize, Refusal>) -> io::Result<()> {
    match r {
        Ok(n) => println!(rt; "0 {n}"),
        Err(refusal) => last(rt, u64::from(u8::from(refusal))),
    }
}

fn vectors(rt: &impl Print, seed: u32) -> io::Result<()> {
    twenty_draws(rt, seed)?;
    ten_steps(rt, seed)
}

// Writes a file of 92 bytes into an output of 96, whose last 4 bytes stay, and into one of 91, which is refused and left unchanged.
fn small_files(rt: &impl Print) -> io::Result<()> {
    let mut out = [170u8; 96];
    report(rt, workload::write(1, b"ride", setup(), 2, &mut out))?;
    bytes(rt, &out)?;
    end(rt)?;
    let mut short = [170u8; 91];
    report(rt, workload::write(1, b"ride", setup(), 2, &mut short))?;
    bytes(rt, &short)?;
    end(rt)
}

// Writes the longest file with the most steps, then one byte too many, one step too many, and the largest count. A setup out of range is refused before too many steps.
fn sizes(rt: &impl Print) -> io::Result<()> {
    let mut out = [0u8; 65537];
    let note = [0u8; 1481];
    report(
        rt,
        workload::write(1, &note[..1480], setup(), 4000, &mut out),
    )?;
    report(rt, workload::write(1, &note, setup(), 4000, &mut out))?;
    report(rt, workload::write(1, b"", setup(), 4001, &mut out))?;
    report(rt, workload::write(1, b"", setup(), 4294967295, &mut out))?;
    let mut s = setup();
    s.clients = 17;
    report(rt, workload::write(1, b"", s, 4001, &mut out))
}

// Writes `len` steps, of which the first is `step` and the others are zero. The file of one step has 72 bytes; more than 4,000 are refused.
fn one_step(rt: &impl Print, step: Step, len: usize) -> io::Result<()>
    requires { len ≤ 4002 }
{
    let mut steps = [file_records::no_step(); 4002];
    steps[0] = step;
    let mut out = [0u8; 72];
    report(
        rt,
        file_writer::write(b"", setup(), &steps[..len], &mut out),
    )?;
    bytes(rt, &out)?;
    end(rt)
}

fn given_steps(rt: &impl Print) -> io::Result<()> {
    let read = Step {
        kind: 2,
        client: 2,
        object: 3,
        place: 0,
        clock: 0,
        value: 0,
    };
    one_step(rt, read, 1)?;
    one_step(rt, read, 4001)?;
    one_step(rt, read, 4002)?;
    // a field that a read does not use, then the same in a step of an unknown kind
    let mut odd = read;
    odd.clock = 258;
    one_step(rt, odd, 1)?;
    odd.kind = 12;
    one_step(rt, odd, 1)
}

// 02, A7: writes a return to a name that no run has, then a save with a clock, which it does not use.
fn given_names(rt: &impl Print) -> io::Result<()> {
    let named = Step {
        kind: 11,
        client: 0,
        object: 0,
        place: 200,
        clock: 0,
        value: 0,
    };
    one_step(rt, named, 1)?;
    let mut odd = named;
    odd.kind = 10;
    odd.clock = 258;
    one_step(rt, odd, 1)
}

fn main(rt: HostRuntime) -> io::Result<()> {
    vectors(&rt, 0)?;
    vectors(&rt, 1)?;
    vectors(&rt, 4294967295)?;
    small_files(&rt)?;
    sizes(&rt)?;
    given_steps(&rt)?;
    given_names(&rt)
}
