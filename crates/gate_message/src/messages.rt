ghost use Rattle.std.specs.Prelude.{true, ◌≡◌};
ghost use Rattle.protocol.specs.Setup.{in_range};
ghost use Rattle.protocol.specs.Sound.{kind_sound, message_sound};

use crate::object_sets::set_sound;
use protocol::message::{Kind, Message};
use protocol::setup::Setup;
use setup::limits;

// Returns whether the fields of this kind are sound: "named items existing", a GRANT's "expiries (in messages too)", and the set of a BATCH or a CLEARED (02,
// A6): "A set bit that is no object of its volume makes tables unsound, in messages too."
fn kind_sound(setup: Setup, kind: Kind) -> bool
    requires { in_range setup ≡ true }
    ensures { result ≡ kind_sound setup kind }
{
    match kind {
        Kind::Grant {
            object,
            volume_expiry,
            object_expiry,
            ..
        } => (u32::from(object) < setup.objects)
            & (volume_expiry <= limits::LAST_END)
            & (object_expiry <= limits::LAST_END),
        Kind::Renew { object, .. } | Kind::Invalidate { object, .. } | Kind::Ack { object, .. } =>
            u32::from(object) < setup.objects,
        Kind::Offer { volume, .. } | Kind::Dropped { volume, .. } => u32::from(volume)
            < setup.volumes,
        Kind::Batch { volume, set, .. } | Kind::Cleared { volume, set, .. } => (u32::from(volume)
            < setup.volumes)
            & set_sound(setup, usize::from(volume), set),
    }
}

// Returns whether the message's client exists ("named items existing") and the fields of its kind are sound.
pub fn message_sound(setup: Setup, message: Message) -> bool
    requires { in_range setup ≡ true }
    ensures { result ≡ message_sound setup message }
{
    let kind = message.kind;
    let named = u32::from(message.client) < setup.clients;
    named & kind_sound(setup, kind)
}
