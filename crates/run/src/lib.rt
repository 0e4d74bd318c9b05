// Lists a run: from the bytes of its file to the bytes of its listing.
#![tactic(auto)]

pub mod steps;

ghost use Rattle.std.specs.Prelude.{◌≤◌, ◌≡◌, length};
ghost use Rattle.file_reader.specs.File.{contents_of};
ghost use Rattle.bytes_layout.specs.Written.{Written};
ghost use Rattle.bytes_layout.specs.Report.{Reports};
ghost use Rattle.listing.specs.Listing.{LONGEST};
ghost use Rattle.run.specs.Listed.{file_listing, list_refusal};

use file_reader::Contents;
use protocol::refusal::Refusal;

// Writes the listing of an accepted run file to the start of an output that has room for any listing. Returns its length.
fn print(file: &[u8], c: Contents, out: &mut [u8]) -> usize
    requires c_value { Ok c ≡ contents_of file.now }
    requires in_bounds { LONGEST ≤ length out.old }
    ensures { Written out.old out.new 0 (file_listing file.now) result }
{
    let at = listing::write_header(out, 0);
    crate::steps::run_steps(file, c, out, at)
}

// Writes the listing of a run file to the output, "a header, then a line a step". Accepts any bytes: refuses with 9 if they are not a run file ("Run file
// shaped as above, its setup in range? 9"), and with 8 if the output is too short for the listing ("a lent output long enough? 8"). A refusal leaves the
// output unchanged.
pub fn list(file: &[u8], out: &mut [u8]) -> Result<usize, Refusal>
    ensures { Reports (list_refusal file.now (length out.old)) (file_listing file.now) out.old out.new result }
{
    let c = file_reader::read(file)?;
    let mut buffer = [0u8; listing::LONGEST];
    let n = print(file, c, &mut buffer);
    if out.len() < n {
        return Err(Refusal::Room);
    }
    bytes_layout::output::write_bytes(out, 0, &buffer[..n]);
    Ok(n)
}
