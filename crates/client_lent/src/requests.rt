ghost use Rattle.std.specs.Prelude.{◌≡◌, ◌<◌, get_or, set};
ghost use Rattle.std.specs.List.{list_all};
ghost use Rattle.protocol.specs.Tables.{no_request};
ghost use Rattle.protocol.specs.Sound.{request_sound, requests_sound};
ghost use Rattle.protocol.specs.Client.{numbered, ended};
ghost use Rattle.setup.specs.Limits.{largest};

use crate::list;
use client_cache::request::{end, number};
use gate_records::requests::{as_many, request_sound};
use protocol::records::Request;
use protocol::setup::Setup;
use setup::fresh::no_request;

// Returns the request of client i; indices past the end read as no request.
pub fn look(requests: &[Request], i: usize) -> Request
    ensures { result ≡ get_or requests.now i no_request }
{
    list::look(requests, i, no_request())
}

// Takes the next number for a request for the object, which becomes the standing request: "one record, lent and updated". Returns the number.
pub fn take_number(r: &mut Request, object: u8) -> u32
    requires { r.old.next < largest }
    ensures { (result ≡ r.old.next) × (r.new ≡ numbered r.old object) }
{
    *r = number(*r, object);
    r.number
}

// Ends the standing request of the record: "one record, lent and updated".
pub fn end_request(r: &mut Request)
    ensures { r.new ≡ ended r.old }
{
    *r = end(*r);
}

// Returns whether every request is sound.
// Kept: a `for` with `&=`, as for the copies.
fn all_sound(requests: &[Request], setup: Setup) -> bool
    ensures { result ≡ list_all (request_sound setup) requests.now }
{
    let mut ok = true;
    for request in requests {
        ok &= request_sound(setup, *request);
    }
    ok
}

// Answers question 1 for the requests: there is one per client ("another length is unsound"), next numbers are at least 1, and the object of a standing
// request exists.
pub fn sound(requests: &[Request], setup: Setup) -> bool
    ensures { result ≡ requests_sound setup requests.now }
{
    as_many(setup, requests.len()) && all_sound(requests, setup)
}
