ghost use Rattle.std.specs.Prelude.{◌≡◌, ◌<◌};
ghost use Rattle.protocol.specs.Client.{numbered, ended, turned, CanTurn, stands, forgotten};
ghost use Rattle.setup.specs.Limits.{largest};

use protocol::records::Request;
use protocol::step::Turn;
use setup::fresh::idle;

// Step 3: "take the next number, replace the standing request".
pub fn number(r: Request, object: u8) -> Request
    requires { r.next < largest }
    ensures { result ≡ numbered r object }
{
    Request {
        next: r.next + 1,
        standing: true,
        number: r.next,
        object,
    }
}

// "end the request": only the next number remains.
pub fn end(r: Request) -> Request
    ensures { result ≡ ended r }
{
    idle(r.next)
}

// Returns the request after a turn.
pub fn turn(r: Request, u: Turn) -> Request
    requires { CanTurn r u }
    ensures { result ≡ turned r u }
{
    match u {
        Turn::Keep => r,
        Turn::Take(object) => number(r, object),
        Turn::End => end(r),
    }
}

// Returns whether this is the number of the standing request: "needs the standing number".
#[tactic(auto, unfolding(protocol::specs::Client::stands))]
pub fn stands(r: Request, number: u32) -> bool
    ensures { result ≡ stands r number }
{
    r.standing & (r.number == number)
}

// Returns the turn that an INVALIDATE makes: "forget a standing request for that object".
#[tactic(auto, unfolding(protocol::specs::Client::forgotten))]
pub fn forget(r: Request, object: u8) -> Turn
    ensures { result ≡ forgotten r object }
{
    if r.standing & (r.object == object) {
        Turn::End
    } else {
        Turn::Keep
    }
}
