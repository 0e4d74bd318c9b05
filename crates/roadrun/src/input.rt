// Reads a whole file.
ghost use Rattle.std.specs.Prelude.{◌<◌, ◌≤◌, length, take, IfOk};
ghost use Rattle.std.specs.Io.KnownBytes.{Consumes, IsAtEnd};

use std::io;
use std::io::Read;

// Reads until `file` is full or the input ends, and returns the number of bytes read.
pub fn read<R: Read>(reader: &mut R, file: &mut [u8]) -> io::Result<usize>
    ensures within { IfOk result (λ n. n ≤ length file.new) }
    ensures bytes { IfOk result (λ n. Consumes (R.remaining reader.old) (R.remaining reader.new) (take n file.new)) }
    ensures end { IfOk result (λ n. n < length file.new → IsAtEnd (R.remaining reader.new)) }
{
    // Kept: each read moves the index by as many bytes as it gives, so no iterator counts it.
    let mut n = 0;
    while n < file.len() {
        let more = reader.read(&mut file[n..])?;
        if more == 0 {
            break;
        }
        n += more;
    }
    Ok(n)
}
