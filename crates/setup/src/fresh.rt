// Makes client records that hold nothing yet, or no longer.
ghost use Rattle.std.specs.Prelude.{false, ◌≡◌};
ghost use Rattle.protocol.specs.Tables.{fresh_request, no_copy, no_request};

use protocol::records::{Copy, Request};

// Returns no copy: a client's copy before the first grant ("All else is fresh 0, none or no"; "version (0 is no copy)"), an erased one ("version, value and
// expiry 0"), and what a place without a copy reads as.
// Kept: the name says which of 01's values it is, where `Copy::default()` would only say that all is 0. So for `no_request`; the others are not all 0.
pub fn fresh_copy() -> Copy
    ensures { result ≡ no_copy }
{
    Copy {
        version: 0,
        value: 0,
        expiry: 0,
    }
}

// Returns a request record with this next number and no standing request.
pub fn idle(next: u32) -> Request
    ensures { result ≡ record { next = next; standing = false; number = 0; object = 0 } }
{
    Request {
        next,
        standing: false,
        number: 0,
        object: 0,
    }
}

// Returns a client's request record before it has asked for anything: "next request number (fresh 1); standing request, none".
pub fn fresh_request() -> Request
    ensures { result ≡ fresh_request }
{
    idle(1)
}

// Returns what a place without a request reads as.
pub fn no_request() -> Request
    ensures { result ≡ no_request }
{
    idle(0)
}
