// Performs an accepted step that is not a client's: 1, 4 and 8 (the server's), 6 and 7 (the network's).
ghost use Rattle.std.specs.Prelude.{true, false, ◌≡◌};
ghost use Rattle.protocol.specs.declared.records.Copy.{Copy};
ghost use Rattle.protocol.specs.declared.records.Request.{Request};
ghost use Rattle.protocol.specs.Setup.{in_range};
ghost use Rattle.protocol.specs.Sound.{tables_sound};
ghost use Rattle.protocol.specs.Gate.{uses_client, refusal_of_step};
ghost use Rattle.protocol.specs.Decide.{counting, performed};
ghost use Rattle.state_words.specs.View.{tables_of, records_of};

use known_kinds::StepKind;
use network_queue::doubling::double;
use network_queue::removal::remove;
use protocol::setup::Setup;
use protocol::step::Step;
use server_complete::settle;
use state_words::{Values, Words};

// Performs a step that needs no client records: the clock's, a write, "Lose place i", "Double place i" and the server's restart. Returns the number of
// writes completed.
pub fn of_no_client(setup: Setup, words: &mut Words, values: &mut Values, step: Step) -> u32
    requires setup_value { in_range setup ≡ true }
    requires values_value { tables_sound setup (tables_of words.old values.old) ≡ true }
    requires step_value { (r : Request) → refusal_of_step setup (tables_of words.old values.old) r step ≡ 0 }
    requires step_value_2 { uses_client step ≡ false }
    requires fact { step.kind ≡ 5 → ⊥ }
    ensures values_after { (c : Copy) (r : Request) → counting (record { count = result; tables = tables_of words.new values.new }) ≡ performed setup (tables_of words.old values.old) c r step }
    ensures values_unchanged { records_of words.new values.new ≡ records_of words.old values.old }
{
    match StepKind::try_from(step.kind) {
        Ok(StepKind::Clock) => settle::pass_time(setup, words, values, step.clock),
        Ok(StepKind::Write) => {
            let o = step.object as usize;
            server_write::accept::accept_write(setup, words, values, o, step.value)
        }
        Ok(StepKind::Lose) => {
            remove(words, values, step.place as usize);
            0
        }
        Ok(StepKind::Double) => {
            double(words, values, step.place as usize);
            0
        }
        Ok(StepKind::RestartServer) => {
            server_restart::restart(setup, words, values);
            0
        }
        _ => unreachable!(),
    }
}
