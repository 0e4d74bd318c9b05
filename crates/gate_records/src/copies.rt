ghost use Rattle.std.specs.Prelude.{◌≡◌, ◌*◌, eqb};
ghost use Rattle.protocol.specs.Sound.{time_fits};

use protocol::records::Copy;
use protocol::setup::Setup;
use setup::limits;

// Returns whether the copy's expiry is in range: "expiries .. at most 2,148,483,647".
pub fn copy_sound(copy: Copy) -> bool
    ensures { result ≡ time_fits copy.expiry }
{
    copy.expiry <= limits::LAST_END
}

// Returns whether there is one copy for each client and object: "dash by dash in object order; another length is unsound".
// Kept: no twin of that of requests.rt. This counts clients times objects, that one counts clients.
pub fn as_many(setup: Setup, len: usize) -> bool
    ensures { result ≡ eqb len (setup.clients * setup.objects) }
{
    let clients = setup.clients as usize;
    let objects = setup.objects as usize;
    len == clients * objects
}
