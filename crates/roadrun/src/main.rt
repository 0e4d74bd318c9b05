// Reads a run file from standard input and prints its listing (01, "Frame, run file and listing"). A failed read or write is told on standard error, and
// then the exit status is 1.
#![tactic(auto)]

mod failure;
mod input;

ghost use Rattle.std.specs.Prelude.{◌≤◌, length, OnOk, IfErr, IfSome};
ghost use Rattle.std.specs.Io.KnownBytes.{Appends, Keeps};
ghost use Rattle.bytes_layout.specs.Written.{Written};
ghost use Rattle.listing.specs.Listing.{LONGEST};
ghost use Rattle.roadrun.specs.Failed.{IfUnread};
ghost use Rattle.roadrun.specs.Printed.{printed};

use failure::Failure;
use std::io::{Read, Write};
use std::process::ExitCode;

// Writes what the program prints for a file to `out`, and returns its length. The buffer holds any listing, so a refusal means a bad file: "A refused file
// prints the header and "0 4 9"."
fn print(file: &[u8], out: &mut [u8]) -> usize
    requires { LONGEST ≤ length out.old }
    ensures { Written out.old out.new 0 (printed file.now) result }
{
    match run::list(file, out) {
        Ok(n) => n,
        Err(_) => listing::write_refused(out, 0),
    }
}

// Reads a file and writes its listing: "The program roadrun reads such a file on standard input and prints a header, then a line a step". Reads one byte
// more than a run file can have, so that an over-long file is refused and not truncated. Writes nothing for a file that could not be read to its end: the
// listing of a part would pass for that of the whole.
fn list<R: Read, W: Write>(reader: &mut R, writer: &mut W) -> Result<(), Failure>
    ensures whole { OnOk result (IfSome (R.remaining reader.old) (λ file. Appends (W.contents writer.old) (W.contents writer.new) (printed file))) }
    ensures unread { IfErr result (λ e. IfUnread e (Keeps (W.contents writer.old) (W.contents writer.new))) }
{
    let mut file = [0u8; file_records::sizes::FILE + 1];
    let n = match input::read(reader, &mut file) {
        Ok(n) => n,
        Err(error) => return Err(Failure::Unread(error)),
    };
    let mut out = [0u8; listing::LONGEST];
    let m = print(&file[..n], &mut out);
    match writer.write_all(&out[..m]) {
        Ok(()) => Ok(()),
        Err(error) => Err(Failure::Unwritten(error)),
    }
}

fn main(rt: HostRuntime) -> ExitCode {
    match list(&mut rt.stdin(), &mut rt.stdout()) {
        Ok(()) => ExitCode::SUCCESS,
        Err(failure) => {
            // where this line fails too, the status is all that is left
            let _ = eprintln!(rt; "roadrun: {failure}");
            ExitCode::FAILURE
        }
    }
}
