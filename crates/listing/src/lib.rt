// Writes the listing of a run (01, "Frame, run file and listing"). Each function writes at the offset `at` and returns the offset after.
#![tactic(auto)]

ghost use Rattle.std.specs.Prelude.{◌+◌, ◌≤◌, length};
ghost use Rattle.bytes_layout.specs.Written.{Written};
ghost use Rattle.listing.specs.Listing.{header, line, line_of, refused_listing};

use protocol::step::Answer;

// room for the longest listing
pub const LONGEST: usize = 112640;

// Writes the header line: "prints a header".
pub fn write_header(out: &mut [u8], at: usize) -> usize
    requires { at + 18 ≤ length out.old }
    ensures { Written out.old out.new at header result }
{
    bytes_layout::output::write_bytes(out, at, b"step answer value\n")
}

// Writes a line of three numbers. Needs room for numbers of 20 digits.
pub fn write_numbers(out: &mut [u8], at: usize, step: u64, number: u64, value: u64) -> usize
    requires { at + 63 ≤ length out.old }
    ensures { Written out.old out.new at (line step number value) result }
{
    let second = listing_decimal::write_field(out, at, step, b' ');
    let third = listing_decimal::write_field(out, second, number, b' ');
    listing_decimal::write_field(out, third, value, b'\n')
}

// Writes the line of a step and its answer: "then a line a step".
pub fn write_line(out: &mut [u8], at: usize, step: u64, answer: Answer) -> usize
    requires { at + 63 ≤ length out.old }
    ensures { Written out.old out.new at (line_of step answer) result }
{
    write_numbers(
        out,
        at,
        step,
        listing_answers::number_of(answer),
        listing_answers::value_of(answer),
    )
}

// Writes the listing of a refused run file: the header and "0 4 9".
pub fn write_refused(out: &mut [u8], at: usize) -> usize
    requires { at + 81 ≤ length out.old }
    ensures { Written out.old out.new at refused_listing result }
{
    let next = write_header(out, at);
    write_numbers(out, next, 0, 4, 9)
}
