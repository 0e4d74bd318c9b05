// Follows a run up to a read, on words and values that it owns, and keeps the last event of what is read.
ghost use Rattle.std.specs.Prelude.{◌+◌, ◌≡◌};
ghost use Rattle.file_reader.specs.Steps.{steps_of};
ghost use Rattle.promises.specs.Reasons.Reason.{reason_of};
ghost use Rattle.reason.specs.Explained.{Chosen, if_asked};

use crate::given::reason_by;
use client_apply::{copy_of, request_of};
use file_reader::Contents;
use file_records::sizes;
use promises::reasons::Reason;
use protocol::step::{Answer, Step};
use reason_events::{event, follow, latest};
use state_words::saved::NAMES;
use state_words::{VALUES, WORDS};

// Returns the reason if the read was answered "ask first".
fn if_asked(answer: Answer, reason: Reason) -> Option<Reason>
    ensures { result ≡ if_asked answer reason }
{
    match answer {
        Answer::AskFirst => Some(reason),
        _ => None,
    }
}

// Runs the first `count` steps of an accepted file, then the read, which is the step after them. The place in the file runs along: "keep a running place
// and add 16 after each". Returns the read's reason.
pub fn run_until(file: &[u8], c: Contents, count: u32, read: Step) -> Option<Reason>
    requires { Chosen file.now c count read }
    ensures { result ≡ reason_of c.setup (steps_of file.now) (count + 1) }
{
    let s = c.setup;
    let mut words = [0; WORDS];
    let mut values = [0; VALUES];
    let mut saved = [[0; WORDS]; NAMES];
    let mut saved_values = [[0; VALUES]; NAMES];
    state_words::fresh::fresh(&mut words, &mut values);
    let at = step_target::target_at(s, read.client, read.object);
    let mut lasts = reason_events::no_events();
    let mut place = c.first;
    for k in 0..count {
        let step = file_reader::step_at(file, place);
        let request = request_of(s, &words, &values, at);
        let before = copy_of(s, &words, &values, at);
        let answer = run_saved::advance(
            s,
            &mut words,
            &mut values,
            &mut saved,
            &mut saved_values,
            step,
        );
        let after = copy_of(s, &words, &values, at);
        let e = event(read, request, before, after, step, answer);
        lasts = follow(lasts, latest(lasts.now, k + 1, e), step, answer);
        place += sizes::STEP;
    }
    let reason = reason_by(s, &words, &values, read, lasts.now);
    let answer = run_saved::advance(
        s,
        &mut words,
        &mut values,
        &mut saved,
        &mut saved_values,
        read,
    );
    if_asked(answer, reason)
}
