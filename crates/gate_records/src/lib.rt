// Question 1 for the client records (01, "Questions at the gate"): for one copy or request, passed by value, and for the number of them.
#![tactic(auto)]

ghost use Rattle.std.specs.Prelude.{◌&&◌, ◌≡◌};

pub mod copies;
pub mod requests;

// Combines the answer for the copies with the answer for the requests.
pub fn both(a: bool, b: bool) -> bool
    ensures { result ≡ (a && b) }
{
    a & b
}
