// The public step (01 and 02, A7) over lent words, lent records and four saved states. A step of 01's kinds is `step_lent`'s. A save stores the lent
// records in the words, where they have room, and saves the words; a return restores the words and loads the lent records from them.
#![tactic(auto)]

ghost use Rattle.std.specs.Prelude.{false, ◌≡◌};
ghost use Rattle.protocol.specs.Answers.{answer_number, answer_value};
ghost use Rattle.protocol.specs.Saved.{uses_name, Called};
ghost use Rattle.state_words.specs.View.{records_of};
ghost use Rattle.step_numbers.specs.Numbers.{number_of, value_of};
ghost use Rattle.step.specs.Lent.{machine, Unchanged};

use client_transfer::{copies, requests};
use protocol::records::{Copy, Request};
use protocol::refusal::Refusal;
use protocol::setup::Setup;
use protocol::step::{Answer, Step};
use state_words::saved::{SavedValues, SavedWords};
use state_words::{Values, Words};
use step_saved::apply::apply;
use step_saved::{plan, sound};

// Performs one step (01, "Steps", and 02, A7) on any input. `copies` is the "lent list of records, all dashes' in one, dash by dash in object order";
// `requests` has one record per client; `saved` and `saved_values` have the "four named states". Refused, "every lent table and buffer is unchanged". The
// client records in the words are used and changed by a save and a return alone.
pub fn step(
    setup: Setup,
    words: &mut Words,
    values: &mut Values,
    copies: &mut [Copy],
    requests: &mut [Request],
    saved: &mut SavedWords,
    saved_values: &mut SavedValues,
    step: Step,
) -> Answer
    ensures calls { Called setup (machine setup words.old values.old copies.old requests.old saved.old saved_values.old) step result (machine setup words.new values.new copies.new requests.new saved.new saved_values.new) }
    ensures numbers { answer_number result ≡ number_of setup (machine setup words.old values.old copies.old requests.old saved.old saved_values.old) step }
    ensures values { answer_value result ≡ value_of setup (machine setup words.old values.old copies.old requests.old saved.old saved_values.old) step }
    ensures refuses { answer_number result ≡ 4 → Unchanged words.old values.old copies.old requests.old saved.old saved_values.old words.new values.new copies.new requests.new saved.new saved_values.new }
    ensures keeps { uses_name step ≡ false → records_of words.new values.new ≡ records_of words.old values.old }
{
    if !sound::all(setup, &*saved, &*saved_values) {
        return Answer::Refused(u8::from(Refusal::Unsound));
    }
    let a = step_lent::step(
        setup,
        &mut *words,
        &mut *values,
        &mut *copies,
        &mut *requests,
        step,
    );
    let p = plan::planned(setup, a, &*saved, step);
    copies::to_words(&*copies, &mut *words, &mut *values, p.copies_saved);
    requests::to_words(&*requests, &mut *words, p.requests_saved);
    apply(
        &mut *words,
        &mut *values,
        &mut *saved,
        &mut *saved_values,
        p.act,
    );
    copies::from_words(&mut *copies, &*words, &*values, p.copies_restored);
    requests::from_words(&mut *requests, &*words, p.requests_restored);
    p.answer
}
