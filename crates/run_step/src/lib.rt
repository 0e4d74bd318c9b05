// Performs one step of a run in place, on words that also hold the clients' records; a save or a return is a step of `run_saved`. A run starts from fresh
// words, so the answer to question 1 is never "no", and it is not asked.
#![tactic(auto)]

ghost use Rattle.std.specs.Prelude.{true, ◌≡◌};
ghost use Rattle.protocol.specs.Setup.{in_range};
ghost use Rattle.protocol.specs.World.{answer_of, stepped};
ghost use Rattle.protocol.specs.Soundness.Question.{SoundWorld};
ghost use Rattle.state_words.specs.View.{world_of};

use protocol::setup::Setup;
use protocol::step::{Answer, Step};
use state_words::{Values, Words};
use step_perform::perform;
use step_target::target;

// Performs one step on a sound world. Returns the answer.
pub fn advance(setup: Setup, words: &mut Words, values: &mut Values, step: Step) -> Answer
    requires setup_value { in_range setup ≡ true }
    requires sound_world { SoundWorld setup (world_of setup words.old values.old) }
    ensures value { result ≡ answer_of setup (world_of setup words.old values.old) step }
    ensures values_after { world_of setup words.new values.new ≡ stepped setup (world_of setup words.old values.old) step }
{
    let at = target(setup, &*words, &*values, step);
    let c = client_apply::copy_of(setup, &*words, &*values, at);
    let r = client_apply::request_of(setup, &*words, &*values, at);
    match gate::steps::refusal_of_step(setup, &*words, &*values, r, step) {
        Ok(()) => {
            let verdict = perform(setup, &mut *words, &mut *values, c, r, step);
            client_apply::change(setup, words, values, at, verdict.change);
            verdict.answer
        }
        Err(why) => Answer::Refused(u8::from(why)),
    }
}
