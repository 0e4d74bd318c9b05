// Tells what a step did to a client's copy of an object (02, A8), by value: from the step and its answer, the client's request before it, and the copy before
// and after it. Keeps the last event beside the present state and each saved one.
#![tactic(auto)]

ghost use Rattle.std.specs.Prelude.{◌<◌, ◌≡◌};
ghost use Rattle.laws.specs.Line as line;
ghost use Rattle.protocol.specs.Saved.{names};
ghost use Rattle.protocol.specs.Line.{act_of};
ghost use Rattle.promises.specs.Reasons.Events.{is_grant, went_to_zero, vanished, receipt_cause, latest};
ghost use Rattle.promises.specs.Reasons.ByAnswer.{granted_by, cause_by, event_by};
ghost use Rattle.promises.specs.Reasons.Lasts.{no_events, NameKnown, followed};

use client_cache::request;
use known_kinds::StepKind;
use promises::reasons::{Event, Last, Lasts, Why};
use protocol::message::Kind;
use protocol::records::{Copy, Request};
use protocol::step::{Answer, Step};
use state_words::saved::NAMES;

// Returns whether the message is a GRANT for the object that the client stores: one that has the standing number.
fn is_grant(r: Request, object: u8, k: Kind) -> bool
    ensures { result ≡ is_grant r object k }
{
    match k {
        Kind::Grant {
            object: granted,
            number,
            ..
        } => (granted == object) & request::stands(r, number),
        _ => false,
    }
}

// Returns whether the answer tells of a GRANT that this client stores for the object.
fn granted(r: Request, client: u8, object: u8, answer: Answer) -> bool
    ensures { result ≡ granted_by r client object answer }
{
    match answer {
        Answer::Delivered(m, _) => (m.client == client) & is_grant(r, object, m.kind),
        _ => false,
    }
}

// Returns whether a number "went from nonzero to 0".
fn went_to_zero(before: u32, after: u32) -> bool
    ensures { result ≡ went_to_zero before after }
{
    (before != 0) & (after == 0)
}

// Returns whether the copy was erased: "the copy's version or expiry went from nonzero to 0".
#[tactic(auto, unfolding(promises::specs::Reasons::Events::vanished))]
fn vanished(before: Copy, after: Copy) -> bool
    ensures { result ≡ vanished before after }
{
    went_to_zero(before.version, after.version) | went_to_zero(before.expiry, after.expiry)
}

// Returns the reason that a message is for an erased copy: 2 for an INVALIDATE, 3 for an OFFER or a BATCH. No other message erases one.
fn receipt_cause(k: Kind) -> Why
    ensures { result ≡ receipt_cause k }
{
    match k {
        Kind::Invalidate { .. } => Why::CopyInvalidated,
        Kind::Offer { .. } | Kind::Batch { .. } => Why::LeasesDropped,
        _ => Why::NoCause,
    }
}

// Returns the reason that a step is for an erased copy: "copy invalidated, leases dropped on an offer or batch, dash restarted", 2 to 4.
fn cause(step: Step, answer: Answer) -> Why
    ensures { result ≡ cause_by step answer }
{
    if step.kind == u8::from(StepKind::RestartClient) {
        return Why::ClientRestarted;
    }
    match answer {
        Answer::Delivered(m, _) => receipt_cause(m.kind),
        _ => Why::NoCause,
    }
}

// Returns what the step did to the copy that `read` is about, if anything.
#[tactic(auto, unfolding(promises::specs::Reasons::ByAnswer::event_by))]
pub fn event(
    read: Step,
    r: Request,
    before: Copy,
    after: Copy,
    step: Step,
    answer: Answer,
) -> Option<Event>
    ensures { result ≡ event_by read.client read.object r before after step answer }
{
    if granted(r, read.client, read.object, answer) {
        return Some(Event::Granted);
    }
    if vanished(before, after) {
        return Some(Event::Erased(cause(step, answer)));
    }
    None
}

// Returns the last event after a step: that step's, if it has one.
pub fn latest(last: Option<Last>, number: u32, event: Option<Event>) -> Option<Last>
    ensures { result ≡ latest last number event }
{
    match event {
        Some(event) => Some(Last {
            event,
            step: number,
        }),
        None => last,
    }
}

// Returns the last events before the first step: none.
pub fn no_events() -> Lasts
    ensures { result ≡ no_events }
{
    Lasts {
        now: None,
        saved: [None; NAMES],
    }
}

// Saves the present state's last event under the name.
fn save(k: Lasts, name: usize) -> Lasts
    requires { name < names }
    ensures { result ≡ followed k (line.save name) }
{
    let Lasts { now, mut saved } = k;
    saved[name] = now;
    Lasts { now, saved }
}

// Restores the last event that was saved under the name.
fn restore(k: Lasts, name: usize) -> Lasts
    requires { name < names }
    ensures { result ≡ followed k (line.back name) }
{
    Lasts {
        now: k.saved[name],
        ..k
    }
}

// Returns the last events after a step: `next` for the present state, or what a save or a return makes of them. One that was accepted has a name below 4.
pub fn follow(k: Lasts, next: Option<Last>, step: Step, answer: Answer) -> Lasts
    requires { NameKnown step answer }
    ensures { result ≡ followed k (act_of next step answer) }
{
    if !known_kinds::uses_name(step) {
        return Lasts { now: next, ..k };
    }
    if matches!(answer, Answer::Refused(_)) {
        return k;
    }
    let name = usize::from(step.place);
    if step.kind == u8::from(StepKind::Save) {
        return save(k, name);
    }
    restore(k, name)
}
