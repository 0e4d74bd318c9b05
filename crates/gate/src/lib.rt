// The gate: asks its questions in order, about the tables in the words and values (01, "Questions at the gate").
#![tactic(auto)]

ghost use Rattle.std.specs.Prelude.{◌≡◌};
ghost use Rattle.protocol.specs.Gate.{refusal};
ghost use Rattle.protocol.specs.Refusals.{refused_by};
ghost use Rattle.state_words.specs.View.{tables_of};

use gate_tables::tables::tables_sound;
use protocol::records::Request;
use protocol::refusal::Refusal;
use protocol::setup::Setup;
use protocol::step::Step;
use state_words::{Values, Words};

pub mod steps;

// Asks the six questions in order, and refuses at the first whose answer is "no": "Asked in order; the first "no" gives its number". Question 1 is "Are
// setup and tables sound". Takes any input; `records` says whether all client records are sound.
pub fn refusal(
    setup: Setup,
    words: &Words,
    values: &Values,
    records: bool,
    request: Request,
    step: Step,
) -> Result<(), Refusal>
    ensures { refused_by result ≡ refusal setup (tables_of words.now values.now) records request step }
{
    steps::ask(setup::in_range(setup), Refusal::Unsound)?;
    steps::ask(
        records & tables_sound(setup, words, values),
        Refusal::Unsound,
    )?;
    steps::refusal_of_step(setup, words, values, request, step)
}
