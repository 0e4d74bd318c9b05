ghost use Rattle.std.specs.Prelude.{◌≡◌, eqb};
ghost use Rattle.protocol.specs.Sound.{request_sound};

use protocol::records::Request;
use protocol::setup::Setup;

// Returns whether the request is sound: "next numbers at least 1", and the object of a standing request exists ("named items existing").
pub fn request_sound(setup: Setup, request: Request) -> bool
    ensures { result ≡ request_sound setup request }
{
    (1 <= request.next) & (!request.standing | (u32::from(request.object) < setup.objects))
}

// Returns whether there is one request for each client; another length is unsound.
pub fn as_many(setup: Setup, len: usize) -> bool
    ensures { result ≡ eqb len setup.clients }
{
    len == setup.clients as usize
}
