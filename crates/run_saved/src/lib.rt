// Performs one step of a run, a save or a return too (02, A7), on a machine: the present state and the four saved ones. A run starts from fresh words with
// nothing saved, so no state is ever unsound, and question 1 is not asked.
#![tactic(auto)]

ghost use Rattle.std.specs.Prelude.{true, ◌≡◌};
ghost use Rattle.protocol.specs.Setup.{in_range};
ghost use Rattle.protocol.specs.Saved.{uses_name, Called};
ghost use Rattle.protocol.specs.SavedLaws.{SoundMachine};
ghost use Rattle.state_words.specs.Saved.{machine_of};
ghost use Rattle.run_saved.specs.ByName.{CalledByName};

use protocol::setup::Setup;
use protocol::step::{Answer, Step};
use state_words::saved::{SavedValues, SavedWords};
use state_words::{Values, Words};
use step_saved::apply::apply;
use step_saved::plan::act_by_name;

// Saves or restores the state, by "the name in the place field". Returns the answer: "11 when the name is above 3 or, for a return, was never saved".
fn by_name(
    words: &mut Words,
    values: &mut Values,
    saved: &mut SavedWords,
    saved_values: &mut SavedValues,
    step: Step,
) -> Answer
    requires { uses_name step ≡ true }
    ensures { CalledByName words.old values.old saved.old saved_values.old step result words.new values.new saved.new saved_values.new }
{
    match act_by_name(&*saved, step) {
        Ok(act) => {
            apply(words, values, saved, saved_values, Some(act));
            Answer::Done
        }
        Err(why) => Answer::Refused(u8::from(why)),
    }
}

// Performs one step on a machine whose states are all sound. Returns the answer.
pub fn advance(
    setup: Setup,
    words: &mut Words,
    values: &mut Values,
    saved: &mut SavedWords,
    saved_values: &mut SavedValues,
    step: Step,
) -> Answer
    requires setup_value { in_range setup ≡ true }
    requires sound_machine { SoundMachine setup (machine_of setup words.old values.old saved.old saved_values.old) }
    ensures { Called setup (machine_of setup words.old values.old saved.old saved_values.old) step result (machine_of setup words.new values.new saved.new saved_values.new) }
{
    if known_kinds::uses_name(step) {
        return by_name(words, values, saved, saved_values, step);
    }
    run_step::advance(setup, words, values, step)
}
