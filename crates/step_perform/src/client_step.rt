// Performs an accepted step that changes one client's records: 3 (ask) or 9 (restart).
ghost use Rattle.std.specs.Prelude.{true, ◌≡◌};
ghost use Rattle.protocol.specs.declared.step.Answer.TheVariants.{Done};
ghost use Rattle.protocol.specs.Setup.{in_range};
ghost use Rattle.protocol.specs.Gate.{uses_client, refusal_of_step};
ghost use Rattle.protocol.specs.Decide.{answered, performed};
ghost use Rattle.state_words.specs.View.{tables_of, records_of};

use known_kinds::StepKind;
use protocol::records::{Copy, Request};
use protocol::setup::Setup;
use protocol::step::{Change, CopyChange, Step, Sweep, Turn};
use state_words::{Values, Words};

// Step 3: "take the next number, replace the standing request".
fn asking(object: u8) -> Change
    ensures { result ≡ record { copy = CopyChange.Keep; request = Turn.Take object; sweep = Sweep.Keep } }
{
    Change {
        copy: CopyChange::Keep,
        request: Turn::Take(object),
        sweep: Sweep::Keep,
    }
}

// Step 9: "only its next request number remains".
fn restarting() -> Change
    ensures { result ≡ record { copy = CopyChange.Keep; request = Turn.End; sweep = Sweep.Erase } }
{
    Change {
        copy: CopyChange::Keep,
        request: Turn::End,
        sweep: Sweep::Erase,
    }
}

// Performs the step in the words. Returns the change to the client's records.
pub fn of_client(
    setup: Setup,
    words: &mut Words,
    values: &mut Values,
    c: Copy,
    r: Request,
    step: Step,
) -> Change
    requires setup_value { in_range setup ≡ true }
    requires step_value { refusal_of_step setup (tables_of words.old values.old) r step ≡ 0 }
    requires step_value_2 { uses_client step ≡ true }
    requires fact { step.kind ≡ 2 → ⊥ }
    ensures values_after { answered result (tables_of words.new values.new) Done ≡ performed setup (tables_of words.old values.old) c r step }
    ensures values_unchanged { records_of words.new values.new ≡ records_of words.old values.old }
{
    match StepKind::try_from(step.kind) {
        Ok(StepKind::Ask) => {
            client_steps::ask(setup, words, values, c, r, step.client, step.object);
            asking(step.object)
        }
        Ok(StepKind::RestartClient) => {
            client_steps::restart(setup, words, &*values, step.client);
            restarting()
        }
        _ => unreachable!(),
    }
}
