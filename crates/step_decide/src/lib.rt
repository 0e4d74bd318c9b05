// Decides one step (01, "Steps"): asks the questions, then performs the step by its kind, on the words and the one copy and request that it can touch.
#![tactic(auto)]

ghost use Rattle.std.specs.Prelude.{◌≡◌};
ghost use Rattle.protocol.specs.Answers.{answer_number};
ghost use Rattle.protocol.specs.Decide.{answered, decided};
ghost use Rattle.state_words.specs.View.{tables_of, records_of};

use protocol::records::{Copy, Request};
use protocol::setup::Setup;
use protocol::step::{Answer, Step};
use state_words::{Values, Words};
use step_verdict::Verdict;

// Decides one step on any input; `records` says whether all lent records are sound. Refused, "every lent table and buffer is unchanged"; no step changes
// the client records in the words.
pub fn decide(
    setup: Setup,
    words: &mut Words,
    values: &mut Values,
    records: bool,
    c: Copy,
    r: Request,
    step: Step,
) -> Verdict
    ensures answer_after { answered result.change (tables_of words.new values.new) result.answer ≡ decided setup (tables_of words.old values.old) records c r step }
    ensures words_unchanged { answer_number result.answer ≡ 4 → (words.new ≡ words.old) × (values.new ≡ values.old) }
    ensures values_unchanged { records_of words.new values.new ≡ records_of words.old values.old }
{
    match gate::refusal(setup, &*words, &*values, records, r, step) {
        Ok(()) => step_perform::perform(setup, words, values, c, r, step),
        Err(why) => step_verdict::keeping(Answer::Refused(u8::from(why))),
    }
}
