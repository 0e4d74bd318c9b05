// Performs steps on tables that no run reaches: unsound ones, and ones at or past a limit. The cases are in the file `stdin`, as numbers among words.
// The model reads the same file; the file `stdout` is what it prints of its answers and tables.
#![tactic(auto)]

ghost use Rattle.std.specs.Prelude.{◌≤◌, length, IfOk};

use protocol::step::Step;
use std::io;
use std::io::Read;
use test_case_reader::Case;
use test_case_reader::change::{change, none};
use test_case_reader::states::States;
use test_case_reader::text::Numbers;

// the most bytes of text that are read
const MOST: usize = 131072;

// Reads changes and applies them: their number, then each of three numbers: field, place, value.
fn changed(numbers: &mut Numbers, mut case: Case, states: &mut States) -> Case {
    let count = numbers.number();
    let mut ahead = *numbers;
    for _ in 0..count {
        let field = ahead.number();
        let place = ahead.number() as usize;
        case = change(case, states, field, place, ahead.number());
    }
    numbers.pass(count, ahead);
    case
}

// Performs a step. Prints the answer and what the step changed.
fn performed(
    rt: &impl Print,
    step: Step,
    id: u64,
    case: Case,
    states: &mut States,
) -> io::Result<()> {
    let before = *states;
    let answer = test_step_lending::take(case, states, step);
    test_step_printing::answer::show(rt, id, answer)?;
    test_step_printing::show(rt, &before, states)
}

// Reads steps and performs them, each on what the one before it left: their number, then the steps.
fn taken(
    rt: &impl Print,
    numbers: &mut Numbers,
    id: u64,
    case: Case,
    states: &mut States,
) -> io::Result<()> {
    let count = numbers.number();
    let mut ahead = *numbers;
    for _ in 0..count {
        performed(rt, ahead.step(), id, case, states)?;
    }
    numbers.pass(count, ahead);
    Ok(())
}

// Reads and performs cases up to the end of the text, at most 1,000: each its own number, its changes to the base, and its steps.
fn cases(rt: &impl Print, numbers: &mut Numbers, base: Case, states: &States) -> io::Result<()> {
    for _ in 0..1000 {
        let id = numbers.number();
        if id == 0 {
            break;
        }
        let mut states = *states;
        let case = changed(numbers, base, &mut states);
        taken(rt, numbers, id, case, &mut states)?;
    }
    Ok(())
}

// Performs all cases. The text begins with the changes that make the base, which every case starts from.
fn run(rt: &impl Print, text: &[u8]) -> io::Result<()> {
    let mut numbers = Numbers::of(text);
    let mut states = States::fresh();
    let base = changed(&mut numbers, none(), &mut states);
    cases(rt, &mut numbers, base, &states)
}

// Reads until `text` is full or the input ends, and returns the number of bytes read.
// Kept: `read_exact` fails where the input ends first, and `read_to_end` needs a `Vec`, which this program does without.
fn read(reader: &mut impl Read, text: &mut [u8]) -> io::Result<usize>
    ensures { IfOk result (λ n. n ≤ length text.new) }
{
    let mut n = 0;
    while n < text.len() {
        let more = reader.read(&mut text[n..])?;
        if more == 0 {
            break;
        }
        n += more;
    }
    Ok(n)
}

fn main(rt: HostRuntime) -> io::Result<()> {
    let mut text = [0u8; MOST];
    let length = read(&mut rt.stdin(), &mut text)?;
    run(&rt, &text[..length])
}
