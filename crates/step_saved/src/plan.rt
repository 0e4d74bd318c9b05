// Plans a save or a return, once the step of 01 was asked: 01's kinds are done then, and a save or a return was refused for its kind, or with 1.
ghost use Rattle.std.specs.Prelude.{◌*◌, ◌≡◌};
ghost use Rattle.step_saved.specs.Plan.{by_one, act_by_name, staying, saving, returning, name_plan, plan_of};

use known_kinds::StepKind;
use protocol::refusal::Refusal;
use protocol::setup::Setup;
use protocol::step::{Answer, Step};
use saved_states::is_saved;
use state_words::saved::{NAMES, SavedWords};

// What is to be done to the states: to save the present one under a name, or to return to the one under a name.
#[derive(Clone, Copy)]
pub enum Act {
    Save(usize),
    Return(usize),
}

// What is left to do of a step: how many of the lent records go into the words before the act, how many come from there after it, and the answer.
#[derive(Clone, Copy)]
pub struct Plan {
    pub act: Option<Act>,
    pub copies_saved: usize,
    pub requests_saved: usize,
    pub copies_restored: usize,
    pub requests_restored: usize,
    pub answer: Answer,
}

// Returns whether the answer is a refusal with 1.
fn by_one(answer: Answer) -> bool
    ensures { result ≡ by_one answer }
{
    matches!(answer, Answer::Refused(1))
}

// Returns the plan of a step that saves nothing and returns to nothing.
fn staying(answer: Answer) -> Plan
    ensures { result ≡ staying answer }
{
    Plan {
        act: None,
        copies_saved: 0,
        requests_saved: 0,
        copies_restored: 0,
        requests_restored: 0,
        answer,
    }
}

// Returns the number of copies, one for each client and object.
pub fn all_copies(setup: Setup) -> usize
    ensures { result ≡ setup.clients * setup.objects }
{
    let clients = setup.clients as usize;
    let objects = setup.objects as usize;
    clients * objects
}

// Returns the plan of an accepted save.
fn saving(setup: Setup, name: usize) -> Plan
    ensures { result ≡ saving setup name }
{
    Plan {
        act: Some(Act::Save(name)),
        copies_saved: all_copies(setup),
        requests_saved: setup.clients as usize,
        copies_restored: 0,
        requests_restored: 0,
        answer: Answer::Done,
    }
}

// Returns the plan of an accepted return.
fn returning(setup: Setup, name: usize) -> Plan
    ensures { result ≡ returning setup name }
{
    Plan {
        act: Some(Act::Return(name)),
        copies_saved: 0,
        requests_saved: 0,
        copies_restored: all_copies(setup),
        requests_restored: setup.clients as usize,
        answer: Answer::Done,
    }
}

// Returns what a save or a return on sound states does: "11 when the name is above 3 or, for a return, was never saved".
pub fn act_by_name(saved: &SavedWords, step: Step) -> Result<Act, Refusal>
    ensures { result ≡ act_by_name saved.now step }
{
    let name = step.place as usize;
    if name < NAMES {
        if StepKind::try_from(step.kind) == Ok(StepKind::Save) {
            return Ok(Act::Save(name));
        }
        if is_saved(saved, name) {
            return Ok(Act::Return(name));
        }
    }
    Err(Refusal::Name)
}

// Returns the plan of a save or a return on sound states.
fn by_name(setup: Setup, saved: &SavedWords, step: Step) -> Plan
    ensures { result ≡ name_plan setup saved.now step }
{
    match act_by_name(saved, step) {
        Ok(Act::Save(name)) => saving(setup, name),
        Ok(Act::Return(name)) => returning(setup, name),
        Err(why) => staying(Answer::Refused(u8::from(why))),
    }
}

// Returns the plan of a step whose answer by the rules of 01 is `answer`; all saved states are sound.
pub fn planned(setup: Setup, answer: Answer, saved: &SavedWords, step: Step) -> Plan
    ensures { result ≡ plan_of setup answer saved.now step }
{
    if known_kinds::uses_name(step) & !by_one(answer) {
        return by_name(setup, saved, step);
    }
    staying(answer)
}
