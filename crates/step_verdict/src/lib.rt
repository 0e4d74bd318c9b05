// The verdict on a step: the change to the client's records, and the answer.
#![tactic(auto)]

ghost use Rattle.std.specs.Prelude.{◌≡◌};
ghost use Rattle.protocol.specs.Answers.{completed_answer};
ghost use Rattle.protocol.specs.Decide.{kept};

use protocol::step::{Answer, Change};

#[derive(Clone, Copy)]
pub struct Verdict {
    pub change: Change,
    pub answer: Answer,
}

// Returns the verdict with this answer and no change to the client's records.
pub fn keeping(answer: Answer) -> Verdict
    ensures { result ≡ record { change = kept; answer = answer } }
{
    Verdict {
        change: client_cache::change::unchanged(),
        answer,
    }
}

// Returns the verdict after n writes completed: no record changes.
pub fn counting(n: u32) -> Verdict
    ensures { result ≡ record { change = kept; answer = completed_answer n } }
{
    if n == 0 {
        return keeping(Answer::Done);
    }
    keeping(Answer::Completed(n))
}

// Returns the verdict "done" with this change to the client's records.
pub fn changing(change: Change) -> Verdict
    ensures { result ≡ record { change = change; answer = Answer.Done } }
{
    Verdict {
        change,
        answer: Answer::Done,
    }
}
