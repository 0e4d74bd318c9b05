// Performs an accepted step in place, by its kind. Each part returns as little as it can.
#![tactic(auto)]

pub mod client_step;
pub mod other_step;

ghost use Rattle.std.specs.Prelude.{true, ◌≡◌, ◌<◌};
ghost use Rattle.protocol.specs.Setup.{in_range};
ghost use Rattle.protocol.specs.Sound.{tables_sound};
ghost use Rattle.protocol.specs.Gate.{refusal_of_step};
ghost use Rattle.protocol.specs.Decide.{kept, answered, read_decided, performed};
ghost use Rattle.state_words.specs.View.{tables_of, numbers_of, records_of};

use crate::client_step::of_client;
use crate::other_step::of_no_client;
use known_kinds::StepKind;
use protocol::records::{Copy, Request};
use protocol::setup::Setup;
use protocol::step::Step;
use state_words::{Values, Words};
use step_verdict::Verdict;

// Performs step 2, a read. The verdict changes no record.
fn read(setup: Setup, words: &Words, c: Copy, step: Step) -> Verdict
    requires setup_value { in_range setup ≡ true }
    requires client_lt_clients { step.client < setup.clients }
    requires object_lt_objects { step.object < setup.objects }
    ensures { result ≡ record { change = kept; answer = (read_decided setup (numbers_of words.now) c step.client step.object).outcome.answer } }
{
    step_verdict::keeping(client_steps::read(setup, words, c, step.client, step.object))
}

// Performs an accepted step of any kind. Returns the answer and the change to the client's records.
pub fn perform(
    setup: Setup,
    words: &mut Words,
    values: &mut Values,
    c: Copy,
    r: Request,
    step: Step,
) -> Verdict
    requires setup_value { in_range setup ≡ true }
    requires values_value { tables_sound setup (tables_of words.old values.old) ≡ true }
    requires step_value { refusal_of_step setup (tables_of words.old values.old) r step ≡ 0 }
    ensures answer_after { answered result.change (tables_of words.new values.new) result.answer ≡ performed setup (tables_of words.old values.old) c r step }
    ensures values_unchanged { records_of words.new values.new ≡ records_of words.old values.old }
{
    match StepKind::try_from(step.kind) {
        Ok(StepKind::Read) => read(setup, &*words, c, step),
        Ok(StepKind::Ask | StepKind::RestartClient) => {
            step_verdict::changing(of_client(setup, words, values, c, r, step))
        }
        Ok(StepKind::Deliver) => {
            step_deliver::deliver(setup, words, values, c, r, step.place as usize)
        }
        _ => step_verdict::counting(of_no_client(setup, words, values, step)),
    }
}
