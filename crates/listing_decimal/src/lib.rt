// Writes numbers in decimal, at the offset `at` of an output. Each function that writes returns the offset after.
#![tactic(auto)]

ghost use Rattle.std.specs.Prelude.{◌+◌, ◌≤◌, ◌≡◌, length};
ghost use Rattle.listing_decimal.specs.Decimal.{digit, width, decimal, field};
ghost use Rattle.bytes_layout.specs.Written.{Written};

// Returns the number of digits.
fn width(number: u64) -> usize
    ensures { result ≡ width number }
{
    number.checked_ilog10().unwrap_or(0) as usize + 1
}

// Returns the last digit as an ASCII byte.
fn digit(number: u64) -> u8
    ensures { result ≡ digit number }
{
    b'0' + (number % 10) as u8
}

// Writes the digits, the last one first: "Numbers are decimal".
fn write_number(out: &mut [u8], at: usize, number: u64) -> usize
    requires { at + 20 ≤ length out.old }
    ensures { Written out.old out.new at (decimal number) result }
{
    let n = width(number);
    let mut higher = number;
    for left in (0..n).rev() {
        out[at + left] = digit(higher);
        higher = higher / 10;
    }
    at + n
}

// Writes a number and the byte that ends it.
pub fn write_field(out: &mut [u8], at: usize, number: u64, end: u8) -> usize
    requires { at + 21 ≤ length out.old }
    ensures { Written out.old out.new at (field number end) result }
{
    let next = write_number(out, at, number);
    out[next] = end;
    next + 1
}
