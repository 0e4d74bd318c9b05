// Reads and writes little-endian numbers of 4 and 8 bytes (01, "Frame, run file and listing"), and copies bytes to a lent output. Callers ensure that
// there is room.
#![tactic(auto)]

pub mod output;

ghost use Rattle.std.specs.Prelude.{◌+◌, ◌≤◌, ◌≡◌, length};
ghost use Rattle.bytes_layout.specs.Number.{number_at, bytes_at, bytes_of, four_bytes, Stored};

// Returns the N bytes at `at`.
pub fn read_bytes<const N: usize>(bytes: &[u8], at: usize) -> [u8; N]
    requires { at + N ≤ length bytes.now }
    ensures { result ≡ bytes_at bytes.now at N }
{
    let mut read = [0; N];
    read.copy_from_slice(&bytes[at..at + N]);
    read
}

// Kept: a function for each width, one line each; a trait over both widths, with its laws, is longer.
// Returns the "little endian" number of 4 bytes at `at`.
pub fn read_u32(bytes: &[u8], at: usize) -> u32
    requires { at + 4 ≤ length bytes.now }
    ensures { result ≡ number_at bytes.now at 4 }
{
    u32::from_le_bytes(read_bytes(bytes, at))
}

// Returns the "little endian" number of 8 bytes at `at`.
pub fn read_u64(bytes: &[u8], at: usize) -> u64
    requires { at + 8 ≤ length bytes.now }
    ensures { result ≡ number_at bytes.now at 8 }
{
    u64::from_le_bytes(read_bytes(bytes, at))
}

pub fn write_four(out: &mut [u8], at: usize, a: u8, b: u8, c: u8, d: u8)
    requires { at + 4 ≤ length out.old }
    ensures { Stored out.old out.new at (four_bytes a b c d) }
{
    output::write_bytes(out, at, &[a, b, c, d]);
}

// Writes a number in 4 bytes from `at` on, "little endian".
pub fn write_u32(out: &mut [u8], at: usize, number: u32)
    requires { at + 4 ≤ length out.old }
    ensures { Stored out.old out.new at (bytes_of 4 number) }
{
    output::write_bytes(out, at, &u32::to_le_bytes(number));
}

// Writes a number in 8 bytes from `at` on, "little endian".
pub fn write_u64(out: &mut [u8], at: usize, number: u64)
    requires { at + 8 ≤ length out.old }
    ensures { Stored out.old out.new at (bytes_of 8 number) }
{
    output::write_bytes(out, at, &u64::to_le_bytes(number));
}
