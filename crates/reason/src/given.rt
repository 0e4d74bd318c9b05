// The reason that a read is given once its last event is known.
ghost use Rattle.std.specs.Prelude.{◌<◌, true, ◌≡◌};
ghost use Rattle.protocol.specs.Setup.{in_range};
ghost use Rattle.state_words.specs.View.{world_of};
ghost use Rattle.promises.specs.Reasons.Reason.{view_until, why_by, reason_by};

use lease_tests::place;
use promises::reasons::{Event, Last, Reason, Why};
use protocol::setup::Setup;
use protocol::step::Step;
use setup::limits::VOLUMES;
use state_words::{Values, Words, client};

// Returns why, after an event: "After a grant, the earlier of the dash's two expiries at the read decides, the volume on a tie."
fn why_by(view: u32, copy: u32, event: Event) -> Why
    ensures { result ≡ why_by view copy event }
{
    match event {
        Event::Granted if view <= copy => Why::VolumeLeaseRanOut,
        Event::Granted => Why::ObjectLeaseRanOut,
        Event::Erased(why) => why,
    }
}

// Returns when the client's lease on the object's volume ends. Only the contract needs the values.
fn view_until<'a>(setup: Setup, words: &'a Words, values: &'a Values, read: Step) -> u32
    requires setup_value { in_range setup ≡ true }
    requires client_lt_clients { read.client < setup.clients }
    requires object_lt_objects { read.object < setup.objects }
    ensures { result ≡ view_until setup (world_of setup words.now values.now) read.client read.object }
{
    let volume = place::volume_of(setup, read.object as usize);
    words[client::VIEW_EXPIRY + (read.client as usize * VOLUMES + volume)]
}

// Returns the reason for a read that meets these words, and the step of the last event.
pub fn reason_by<'a>(
    setup: Setup,
    words: &'a Words,
    values: &'a Values,
    read: Step,
    last: Option<Last>,
) -> Reason
    requires setup_value { in_range setup ≡ true }
    requires client_lt_clients { read.client < setup.clients }
    requires object_lt_objects { read.object < setup.objects }
    ensures { result ≡ reason_by setup (world_of setup words.now values.now) read.client read.object last }
{
    match last {
        None => Reason {
            why: Why::NeverGranted,
            step: 0,
        },
        Some(Last { event, step }) => {
            let at = step_target::target_at(setup, read.client, read.object);
            let copy = client_apply::copy_of(setup, words, values, at);
            let view = view_until(setup, words, values, read);
            Reason {
                why: why_by(view, copy.expiry, event),
                step,
            }
        }
    }
}
