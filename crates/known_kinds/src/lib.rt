// Tells which fields a step uses, by its kind (01, "Steps"). The gate checks the fields that are used, and the reader of run files the others. Neither
// depends on the other, so this is a crate below both.
#![tactic(auto)]

ghost use Rattle.std.specs.Prelude.{◌≡◌, ◌==◌};
ghost use Rattle.protocol.specs.Gate.{is_clock, is_write, uses_client, uses_object, uses_place, known};
ghost use Rattle.protocol.specs.Saved.{uses_name, known_kind};
ghost use Rattle.known_kinds.specs.Kinds.{number_of, Numbers};

use protocol::refusal::Refusal;
use protocol::step::Step;

// A kind of step: 01's nine, and the two of 02, A7: "two new step kinds, 10 save and 11 return, with the name in the place field".
#[derive(Clone, Copy, PartialEq, Eq)]
pub enum StepKind {
    Clock,
    Read,
    Ask,
    Write,
    Deliver,
    Lose,
    Double,
    RestartServer,
    RestartClient,
    Save,
    Return,
}

impl TryFrom<u8> for StepKind {
    type Error = Refusal;

    ghost try_from_gives = { Numbers };

    // Returns the kind with this number: "A step of an unknown kind is a refused one."
    fn try_from(number: u8) -> Result<StepKind, Refusal> {
        match number {
            1 => Ok(StepKind::Clock),
            2 => Ok(StepKind::Read),
            3 => Ok(StepKind::Ask),
            4 => Ok(StepKind::Write),
            5 => Ok(StepKind::Deliver),
            6 => Ok(StepKind::Lose),
            7 => Ok(StepKind::Double),
            8 => Ok(StepKind::RestartServer),
            9 => Ok(StepKind::RestartClient),
            10 => Ok(StepKind::Save),
            11 => Ok(StepKind::Return),
            _ => Err(Refusal::Kind),
        }
    }
}

impl From<StepKind> for u8 {
    ghost from_gives = { λ kind n. n ≡ number_of kind };

    // Returns the number of the kind in 01 or 02.
    fn from(kind: StepKind) -> u8 {
        match kind {
            StepKind::Clock => 1,
            StepKind::Read => 2,
            StepKind::Ask => 3,
            StepKind::Write => 4,
            StepKind::Deliver => 5,
            StepKind::Lose => 6,
            StepKind::Double => 7,
            StepKind::RestartServer => 8,
            StepKind::RestartClient => 9,
            StepKind::Save => 10,
            StepKind::Return => 11,
        }
    }
}

// Returns whether the step is of this kind.
// Kept: compares numbers. A file's reader asks this of each record many times, and converting the number first costs more.
fn is(step: Step, kind: StepKind) -> bool
    ensures { result ≡ (step.kind == number_of kind) }
{
    step.kind == u8::from(kind)
}

// Returns whether the kind is one of 01's: "Is the kind 1 to 9?"
pub fn known(step: Step) -> bool
    ensures { result ≡ known step }
{
    known_kind(step) & !uses_name(step)
}

// Returns whether the step's place is a name: "10 save and 11 return, with the name in the place field".
pub fn uses_name(step: Step) -> bool
    ensures { result ≡ uses_name step }
{
    is(step, StepKind::Save) | is(step, StepKind::Return)
}

// Returns whether the kind is known, saves and returns included: "A step of an unknown kind is a refused one."
pub fn known_kind(step: Step) -> bool
    ensures { result ≡ known_kind step }
{
    StepKind::try_from(step.kind).is_ok()
}

// Returns whether the step names a client: "the dash .. it uses".
pub fn uses_client(step: Step) -> bool
    ensures { result ≡ uses_client step }
{
    is(step, StepKind::Read) | is(step, StepKind::Ask) | is(step, StepKind::RestartClient)
}

// Returns whether the step names an object: "the .. object .. it uses".
pub fn uses_object(step: Step) -> bool
    ensures { result ≡ uses_object step }
{
    is(step, StepKind::Read) | is(step, StepKind::Ask) | is(step, StepKind::Write)
}

// Returns whether the step names a place: "the .. place it uses".
pub fn uses_place(step: Step) -> bool
    ensures { result ≡ uses_place step }
{
    is(step, StepKind::Deliver) | is(step, StepKind::Lose) | is(step, StepKind::Double)
}

// Returns whether this is a clock step; no other step uses the clock.
pub fn uses_clock(step: Step) -> bool
    ensures { result ≡ is_clock step }
{
    is(step, StepKind::Clock)
}

// Returns whether this is a write; no other step uses the value.
pub fn uses_value(step: Step) -> bool
    ensures { result ≡ is_write step }
{
    is(step, StepKind::Write)
}
