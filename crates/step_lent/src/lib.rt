// One step of 01's kinds over lent words and lent records: looks up the records that the step can touch, decides, and applies the decision to them. Saves
// and returns are one layer above.
#![tactic(auto)]

ghost use Rattle.std.specs.Prelude.{◌≡◌};
ghost use Rattle.protocol.specs.Answers.{answer_number};
ghost use Rattle.protocol.specs.World.{answer_of, stepped};
ghost use Rattle.step_lent.specs.Lent.{world};
ghost use Rattle.state_words.specs.View.{records_of};

use client_lent::sweep::sweep;
use client_lent::turn::update;
use client_lent::{copies, requests};
use gate_records::both;
use protocol::records::{Copy, Request};
use protocol::setup::Setup;
use protocol::step::{Answer, Step};
use state_words::{Values, Words};
use step_decide::decide;
use step_target::target;

// Performs one step (01, "Steps") on any input. `copies` is the "lent list of records, all dashes' in one, dash by dash in object order"; `requests` has
// one record per client. Refused, "every lent table and buffer is unchanged". The client records in the words are not used and do not change.
pub fn step(
    setup: Setup,
    words: &mut Words,
    values: &mut Values,
    copies: &mut [Copy],
    requests: &mut [Request],
    step: Step,
) -> Answer
    ensures answers { result ≡ answer_of setup (world words.old values.old copies.old requests.old) step }
    ensures moves { world words.new values.new copies.new requests.new ≡ stepped setup (world words.old values.old copies.old requests.old) step }
    ensures refuses { answer_number result ≡ 4 → (words.new ≡ words.old) × ((values.new ≡ values.old) × ((copies.new ≡ copies.old) × (requests.new ≡ requests.old))) }
    ensures keeps { records_of words.new values.new ≡ records_of words.old values.old }
{
    let held = copies::sound(&*copies, setup);
    let asked = requests::sound(&*requests, setup);
    let sound = both(held, asked);
    let at = target(setup, &*words, &*values, step);
    let c = copies::look(&*copies, at.copy);
    let r = requests::look(&*requests, at.client);
    let v = decide(setup, &mut *words, &mut *values, sound, c, r, step);
    copies::change(&mut *copies, at.copy, v.change.copy);
    sweep(&mut *copies, setup, v.change.sweep, at.first);
    update(&mut *requests, at.client, v.change.request);
    v.answer
}
