// Questions 2 to 6 in order, once the setup is in range. None of them reads the values.
ghost use Rattle.std.specs.Prelude.{true, false, ◌≡◌, OnOk, IfErr};
ghost use Rattle.protocol.specs.Setup.{in_range};
ghost use Rattle.protocol.specs.Gate.{refusal_of_step};
ghost use Rattle.protocol.specs.Refusals.{refused_by};
ghost use Rattle.state_words.specs.View.{tables_of};

use gate_questions::growth::growable;
use protocol::records::Request;
use protocol::refusal::Refusal;
use protocol::setup::Setup;
use protocol::step::Step;
use state_words::{Values, Words};

// Refuses with `why` if the answer to the question is "no": "the first "no" gives its number".
pub fn ask(yes: bool, why: Refusal) -> Result<(), Refusal>
    ensures ok { OnOk result (yes ≡ true) }
    ensures err { IfErr result (λ e. (e ≡ why) × (yes ≡ false)) }
{
    if yes {
        return Ok(());
    }
    Err(why)
}

// Asks questions 2 ("Is the kind 1 to 9?") to 6 ("Is the version, every epoch or the next number ..?") in order, and refuses at the first "no": "the
// first "no" gives its number". Only the contract needs `values`: it is about whole tables.
pub fn refusal_of_step(
    setup: Setup,
    words: &Words,
    values: &Values,
    request: Request,
    step: Step,
) -> Result<(), Refusal>
    requires { in_range setup ≡ true }
    ensures { refused_by result ≡ refusal_of_step setup (tables_of words.now values.now) request step }
{
    ask(known_kinds::known(step), Refusal::Kind)?;
    ask(gate_questions::exists(setup, words, step), Refusal::Missing)?;
    ask(gate_questions::timely(words, step), Refusal::Clock)?;
    ask(gate_questions::vacant(words, step), Refusal::Standing)?;
    ask(growable(setup, words, request, step), Refusal::Growth)
}
