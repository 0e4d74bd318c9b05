// Returns the number and the value that 01 gives each answer.
#![tactic(auto)]

ghost use Rattle.std.specs.Prelude.{◌≡◌};
ghost use Rattle.protocol.specs.Answers.{done_or_completed, answer_number, answer_value};

use protocol::step::Answer;

// Returns 0 (done) if no write completed, else 3: "at least one write completed, in whichever step".
fn done_or_completed(n: u32) -> u64
    ensures { result ≡ done_or_completed n }
{
    if n == 0 { 0 } else { 3 }
}

// Returns the answer's number: "0 done, 1 shown, 2 ask first, 3 at least one write completed, .. 4 refused".
pub fn number_of(answer: Answer) -> u64
    ensures { result ≡ answer_number answer }
{
    match answer {
        Answer::Done => 0,
        Answer::Shown(_) => 1,
        Answer::AskFirst => 2,
        Answer::Completed(n) | Answer::Delivered(_, n) => done_or_completed(n),
        Answer::Refused(_) => 4,
    }
}

// Returns the answer's value: "shown value, writes completed or refusal number, else 0".
pub fn value_of(answer: Answer) -> u64
    ensures { result ≡ answer_value answer }
{
    match answer {
        Answer::Done | Answer::AskFirst => 0,
        Answer::Shown(value) => value,
        Answer::Completed(n) | Answer::Delivered(_, n) => u64::from(n),
        Answer::Refused(k) => u64::from(k),
    }
}
