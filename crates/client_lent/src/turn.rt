ghost use Rattle.std.specs.Prelude.{◌≡◌, get_or, set};
ghost use Rattle.protocol.specs.Tables.{no_request};
ghost use Rattle.protocol.specs.Client.{turned, CanTurn};

use crate::requests::{end_request, take_number};
use protocol::records::Request;
use protocol::step::Turn;

// Applies a turn to one request.
pub fn apply(r: &mut Request, u: Turn)
    requires { CanTurn r.old u }
    ensures { r.new ≡ turned r.old u }
{
    match u {
        Turn::Keep => {}
        Turn::Take(object) => {
            take_number(r, object);
        }
        Turn::End => end_request(r),
    }
}

// Applies a turn to the request of client i ("one record, lent and updated"), or does nothing if i is past the end.
// Kept: an index below the length, as in `store` of list.rt.
pub fn update(requests: &mut [Request], i: usize, u: Turn)
    requires { CanTurn (get_or requests.old i no_request) u }
    ensures { requests.new ≡ set requests.old i (turned (get_or requests.old i no_request) u) }
{
    if i < requests.len() {
        apply(&mut requests[i], u);
    }
}
