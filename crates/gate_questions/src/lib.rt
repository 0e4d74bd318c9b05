// Questions 3 to 6 at the gate (01, "Questions at the gate"), once the setup is in range. They read the words, not the values.
#![tactic(auto)]

pub mod growth;

ghost use Rattle.std.specs.Prelude.{◌≡◌};
ghost use Rattle.protocol.specs.Gate.{exists, timely, vacant};
ghost use Rattle.state_words.specs.View.{numbers_of};

use protocol::setup::Setup;
use protocol::step::Step;
use setup::limits;
use state_words::{Words, network, server};

// Answers question 3: "Do the dash, object and place it uses exist?"
pub fn exists(setup: Setup, words: &Words, step: Step) -> bool
    ensures { result ≡ exists setup (numbers_of words.now) step }
{
    (!known_kinds::uses_client(step) | (u32::from(step.client) < setup.clients))
        & (!known_kinds::uses_object(step) | (u32::from(step.object) < setup.objects))
        & (!known_kinds::uses_place(step) | (u32::from(step.place) < words[network::LENGTH]))
}

// Answers question 4: "Is T from the clock to 2,147,483,647?" Steps other than clock steps pass.
pub fn timely(words: &Words, step: Step) -> bool
    ensures { result ≡ timely (numbers_of words.now) step }
{
    !known_kinds::uses_clock(step)
        | ((words[network::CLOCK] <= step.clock) & (step.clock <= limits::LAST_CLOCK))
}

// Answers question 5: "For a write, is none standing there?" Other steps pass, and so does an object that has no place in the words.
pub fn vacant(words: &Words, step: Step) -> bool
    ensures { result ≡ vacant (numbers_of words.now) step }
{
    let object = usize::from(step.object);
    if object < limits::SLOTS {
        return !known_kinds::uses_value(step) | (words[server::STANDING + object] == 0);
    }
    true
}
