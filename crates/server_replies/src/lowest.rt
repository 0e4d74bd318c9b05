// The object whose INVALIDATE is resent (01, "Messages received", RENEW).
ghost use Rattle.std.specs.Prelude.{◌≡◌, true, ◌<◌, IfSome, unwrap_or};
ghost use Rattle.protocol.specs.Setup.{in_range};
ghost use Rattle.protocol.specs.Server.{waited_in, lowest_waited};
ghost use Rattle.state_words.specs.View.{numbers_of};

use lease_tests::place;
use protocol::setup::Setup;
use state_words::{Words, server};

// Returns whether the object is in the volume and its standing write waits for the client: "Dash waited for in this volume".
fn waited_in(setup: Setup, words: &Words, client: usize, volume: usize, object: usize) -> bool
    requires setup_value { in_range setup ≡ true }
    requires client_lt_clients { client < setup.clients }
    requires object_lt_objects { object < setup.objects }
    ensures { result ≡ waited_in setup (numbers_of words.now) client volume object }
{
    let own = place::volume_of(setup, object);
    let waited = sets::has(words[server::WAITING + object], client);
    (own == volume) & ((words[server::STANDING + object] != 0) & waited)
}

// Kept: 01 names the form, "A loop over the objects yields by break the first one of the volume whose standing write waits for this dash."
// Returns the first object of the volume whose standing write waits for the client, "its lowest such object", or none.
pub fn lowest_waited(setup: Setup, words: &Words, client: usize, volume: usize) -> Option<usize>
    requires setup_value { in_range setup ≡ true }
    requires client_lt_clients { client < setup.clients }
    ensures lowest { unwrap_or result setup.objects ≡ lowest_waited setup (numbers_of words.now) client volume }
    ensures object_lt_objects { IfSome result (λ o. o < setup.objects) }
{
    let n = setup.objects as usize;
    let mut object = 0;
    loop {
        if n <= object {
            break None;
        }
        if waited_in(setup, words, client, volume, object) {
            break Some(object);
        }
        object += 1;
    }
}
