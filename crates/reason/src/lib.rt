// Tells why a read of a run was answered "ask first" (02, A8): from the bytes of a run file and the number of a step.
#![tactic(auto)]

pub mod given;
pub mod steps;

ghost use Rattle.std.specs.Prelude.{◌≡◌, Ok};
ghost use Rattle.file_reader.specs.File.{contents_of};
ghost use Rattle.file_reader.specs.Steps.{steps_of};
ghost use Rattle.promises.specs.Reasons.Reason.{reason_of};
ghost use Rattle.reason.specs.Explained.{reads_in, explanation_of};

use file_reader::Contents;
use file_records::sizes;
use known_kinds::StepKind;
use promises::reasons::Reason;
use protocol::refusal::Refusal;
use protocol::setup::Setup;
use protocol::step::Step;

// Returns whether the step is a read of a client and an object that the setup has. Any other step is not answered "ask first".
fn reads_in(setup: Setup, step: Step) -> bool
    ensures { result ≡ reads_in setup step }
{
    (step.kind == u8::from(StepKind::Read))
        & ((u32::from(step.client) < setup.clients) & (u32::from(step.object) < setup.objects))
}

// Returns the reason of an accepted file's step, by its number, or none: "0 is for a step that is not a read answered "ask first" or not in the run". The run
// is followed up to that step and no further.
fn reason_of(file: &[u8], c: Contents, number: u32) -> Option<Reason>
    requires { Ok c ≡ contents_of file.now }
    ensures { result ≡ reason_of c.setup (steps_of file.now) number }
{
    if number == 0 || c.count < number {
        return None;
    }
    let before = number - 1;
    let read = file_reader::step_at(file, c.first + sizes::STEP * before as usize);
    if reads_in(c.setup, read) {
        return steps::run_until(file, c, before, read);
    }
    None
}

// "A tool reads the run and gives one reason for a chosen read", and "names that event's step, or 0". Steps count from 1, as in the listing. Accepts any
// bytes, and refuses with 9 those that are not a run file.
pub fn why(file: &[u8], number: u32) -> Result<Option<Reason>, Refusal>
    ensures { result ≡ explanation_of file.now number }
{
    let c = file_reader::read(file)?;
    Ok(reason_of(file, c, number))
}
