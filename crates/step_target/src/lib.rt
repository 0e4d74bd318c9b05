// Finds the client records that a step can touch.
#![tactic(auto)]

ghost use Rattle.std.specs.Prelude.{◌≡◌};
ghost use Rattle.protocol.specs.Messages.{object_of};
ghost use Rattle.protocol.specs.World.{target_at, target};
ghost use Rattle.state_words.specs.View.{tables_of};

use known_kinds::StepKind;
use network_queue::list;
use protocol::message::Kind;
use protocol::setup::Setup;
use protocol::step::{Step, Target};
use state_words::{Values, Words};

// Returns the object that a message is about, or 0 if it is about a volume.
fn object_of(k: Kind) -> u8
    ensures { result ≡ object_of k }
{
    match k {
        Kind::Renew { object, .. }
        | Kind::Grant { object, .. }
        | Kind::Invalidate { object, .. }
        | Kind::Ack { object, .. } => object,
        Kind::Offer { .. } | Kind::Dropped { .. } | Kind::Batch { .. } | Kind::Cleared { .. } => 0,
    }
}

// Returns the places of a client's records and of its copy of an object.
pub fn target_at(setup: Setup, client: u8, object: u8) -> Target
    ensures { result ≡ target_at setup client object }
{
    let first = client as usize * setup.objects as usize;
    Target {
        client: client as usize,
        copy: first + object as usize,
        first,
    }
}

// Returns the places of the records that the step names, or that the message it delivers is about. Accepts any input.
pub fn target<'a>(setup: Setup, words: &'a Words, values: &'a Values, step: Step) -> Target
    ensures { result ≡ target setup (tables_of words.now values.now) step }
{
    match StepKind::try_from(step.kind) {
        Ok(StepKind::Deliver) => {
            let m = list::message_at(words, values, step.place as usize);
            target_at(setup, m.client, object_of(m.kind))
        }
        _ => target_at(setup, step.client, step.object),
    }
}
