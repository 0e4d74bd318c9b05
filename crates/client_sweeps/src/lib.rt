// Computes a sweep over one client's copies in the list of all, by value: where it stops, and what each copy becomes.
#![tactic(auto)]

ghost use Rattle.std.specs.Prelude.{◌≡◌, ◌-◌, ◌≤◌, max};
ghost use Rattle.protocol.specs.Client as client;
ghost use Rattle.client_sweeps.specs.Places.{stop_of};

use protocol::records::Copy;
use protocol::setup::Setup;
use protocol::step::Sweep;

// Returns the swept copy at place k of a list in which the client's copies begin at `first`.
pub fn swept_at(setup: Setup, g: Sweep, c: Copy, k: usize, first: usize) -> Copy
    ensures { result ≡ client.swept setup g c (k - first) }
{
    let o = k.saturating_sub(first);
    client_cache::copy::sweep(setup, g, c, o)
}

// Returns the number of copies that a sweep visits.
fn sweeps(g: Sweep, objects: u32) -> usize
    ensures { result ≡ client.sweeps g objects }
{
    match g {
        Sweep::Keep => 0,
        Sweep::Expire(_) | Sweep::Forget(_) | Sweep::Erase => objects as usize,
    }
}

// Returns where n places from `first` on end, cut off at the end of a list of length `len`; `first` if there are none.
#[tactic(auto, unfolding(crate::specs::Places::stop_of))]
fn stop(first: usize, n: usize, len: usize) -> usize
    ensures place { result ≡ stop_of first n len }
    ensures inside { result ≤ max first len }
{
    first + n.min(len.saturating_sub(first))
}

// Returns where a sweep stops in a list of length `len`.
pub fn stop_at(setup: Setup, g: Sweep, first: usize, len: usize) -> usize
    ensures place { result ≡ stop_of first (client.sweeps g setup.objects) len }
    ensures inside { result ≤ max first len }
{
    let n = sweeps(g, setup.objects);
    stop(first, n, len)
}
