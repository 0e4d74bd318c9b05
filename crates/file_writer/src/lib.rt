// Writes run files from a note, a setup and steps. The reader returns the same parts from them (02, A5).
#![tactic(auto)]

ghost use Rattle.std.specs.Prelude.{◌+◌, ◌*◌, ◌≤◌, true, ◌≡◌, length};
ghost use Rattle.std.specs.List.{list_all};
ghost use Rattle.bytes_layout.specs.Written.{Written};
ghost use Rattle.laws.specs.Lists.{All};
ghost use Rattle.bytes_layout.specs.Report.{report_number, Reports};
ghost use Rattle.protocol.specs.Setup.{in_range};
ghost use Rattle.file_records.specs.Bytes.{steps_bytes, file_bytes};
ghost use Rattle.file_records.specs.Round.{Widths};
ghost use Rattle.file_records.specs.Sizes.{STEP};
ghost use Rattle.setup.specs.Limits.{OBJECTS};
ghost use Rattle.file_shape.specs.Shape.{step_fits};
ghost use Rattle.file_writer.specs.File.{file_fits, write_refusal};
ghost use Rattle.file_writer.specs.ReadBack.{ReadAs};

use file_records::sizes;
use protocol::refusal::Refusal;
use protocol::setup::Setup;
use protocol::step::Step;

// Returns whether no "step of a known kind has an unused field not 0".
fn all_fit(steps: &[Step]) -> bool
    ensures { result ≡ list_all step_fits steps.now }
{
    steps.iter().all(|step| file_shape::step_fits(*step))
}

// Returns whether these steps and a note of this length make a run file for an output of `room` bytes. They do not "when more than 4,000 steps are
// wanted, .. the file would pass 65,536 bytes, or the output is too short".
fn file_fits(note_len: usize, steps: &[Step], room: usize) -> bool
    ensures { result ≡ file_fits note_len steps.now room }
{
    if sizes::STEPS < steps.len() {
        return false;
    }
    if sizes::FILE < note_len {
        return false;
    }
    let length = note_len + (sizes::EMPTY + sizes::STEP * steps.len());
    if sizes::FILE < length {
        return false;
    }
    if room < length {
        return false;
    }
    all_fit(steps)
}

// Writes the step records from `at` on, and returns the offset after them.
fn write_steps(out: &mut [u8], at: usize, steps: &[Step]) -> usize
    requires { at + STEP * length steps.now ≤ length out.old }
    ensures written { Written out.old out.new at (steps_bytes steps.now) result }
    ensures widths { All Widths steps.now }
{
    let mut place = at;
    for step in steps {
        place = file_records::bytes::write_step(out, place, *step);
    }
    place
}

// Writes a file that fits at the start of the output, and returns its length.
fn write_file(note: &[u8], setup: Setup, steps: &[Step], out: &mut [u8]) -> usize
    requires setup_value { in_range setup ≡ true }
    requires out_value { file_fits (length note.now) steps.now (length out.old) ≡ true }
    ensures written { Written out.old out.new 0 (file_bytes note.now setup steps.now) result }
    ensures widths { (length setup.volume ≡ OBJECTS) × All Widths steps.now }
{
    let at = bytes_layout::output::write_bytes(out, 0, note);
    let first = file_records::bytes::write_setup(out, at, setup);
    let end = write_steps(out, first, steps);
    file_records::bytes::write_trailer(out, end, steps.len() as u32)
}

// Writes a run file at the start of the output: "it takes note, setup and steps and writes the file that the reader accepts, whose parts come back the
// same". "Output bytes past it stay." Checks everything before it writes the first byte. Refusals: 7 for a setup out of range; then, "after 01's setup
// question", 10 for more than 4,000 steps, a step of a known kind with a nonzero unused field, a file of more than 65,536 bytes, or an output that is too
// short.
pub fn write(note: &[u8], setup: Setup, steps: &[Step], out: &mut [u8]) -> Result<usize, Refusal>
    ensures reports { Reports (write_refusal (length note.now) setup steps.now (length out.old)) (file_bytes note.now setup steps.now) out.old out.new result }
    ensures reads { report_number result ≡ 0 → ReadAs (file_bytes note.now setup steps.now) note.now setup steps.now }
{
    if !setup::in_range(setup) {
        return Err(Refusal::Setup);
    }
    if !file_fits(note.len(), steps, out.len()) {
        return Err(Refusal::Parts);
    }
    Ok(write_file(note, setup, steps, out))
}
