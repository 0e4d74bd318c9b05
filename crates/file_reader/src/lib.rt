// Reads run files: a note, the setup, the steps and a trailer (01, "Frame, run file and listing").
#![tactic(auto)]

ghost use Rattle.std.specs.Prelude.{◌≡◌};
ghost use Rattle.file_reader.specs.File.{contents_of, note_of, step_at};

use file_records::sizes;
use protocol::refusal::Refusal;
use protocol::setup::Setup;
use protocol::step::Step;

// The contents of a run file: its setup, the number of steps, and where their records begin.
#[derive(Clone, Copy)]
pub struct Contents {
    pub setup: Setup,
    pub count: u32,
    pub first: usize,
}

// Returns the contents of a file, and refuses with 9 one that is not a "Run file shaped as above, its setup in range". Takes any bytes.
pub fn read(file: &[u8]) -> Result<Contents, Refusal>
    ensures { result ≡ contents_of file.now }
{
    if !file_shape::well_formed(file) {
        return Err(Refusal::File);
    }
    let at = file_shape::setup_place(file);
    Ok(Contents {
        setup: file_records::setup_in(file, at),
        count: file_shape::count_of(file),
        first: at + sizes::SETUP,
    })
}

// Returns the note, "a rider's note of any length", "as that part of the caller's file" that comes before the setup; empty for a refused file.
pub fn note(file: &[u8]) -> &[u8]
    ensures { result.now ≡ note_of file.now }
{
    if file_shape::well_formed(file) {
        let at = file_shape::setup_place(file);
        return &file[..at];
    }
    &file[..0]
}

// Returns the step whose record begins at `place`, the "running place" of "steps of 16 bytes": `first` for the first step, 16 more for each one after.
// Returns the step of zeros if the file has no record there.
pub fn step_at(file: &[u8], place: usize) -> Step
    ensures { result ≡ step_at file.now place }
{
    let n = file.len();
    if n < sizes::STEP {
        return file_records::no_step();
    }
    if n - sizes::STEP < place {
        return file_records::no_step();
    }
    file_records::step_in(file, place)
}
