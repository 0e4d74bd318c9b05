ghost use Rattle.std.specs.Prelude.{◌≡◌};
ghost use Rattle.protocol.specs.Leases.{client_alive};
ghost use Rattle.protocol.specs.Setup.{volume_of};
ghost use Rattle.protocol.specs.Client.{swept};
ghost use Rattle.client_cache.specs.Shown.{shown_at};

use protocol::records::Copy;
use protocol::setup::Setup;
use protocol::step::Sweep;
use setup::fresh::fresh_copy;

// Returns whether a lease is alive by the client's clock: "A lease is alive when its expiry is greater than the clock."
#[tactic(auto, unfolding(protocol::specs::Leases::client_alive))]
fn alive(clock: u32, expiry: u32) -> bool
    ensures { result ≡ client_alive clock expiry }
{
    clock < expiry
}

// Step 2: returns whether "copy present and both leases alive" holds. `lease` is the expiry of the client's volume lease.
#[tactic(auto, unfolding(crate::specs::Shown::shown_at))]
pub fn showable(clock: u32, lease: u32, c: Copy) -> bool
    ensures { result ≡ shown_at clock lease c }
{
    let leased = alive(clock, lease);
    let held = alive(clock, c.expiry);
    (c.version != 0) & (leased & held)
}

// Returns the object's volume, or 0 if there is no slot for it.
fn volume_of(setup: Setup, o: usize) -> u8
    ensures { result ≡ volume_of setup o }
{
    setup.volume.get(o).copied().unwrap_or(0)
}

// Returns a client's copy of an object after a sweep. `Expire`, for an OFFER, keeps version and value: "all its object expiries to 0". `Forget`, for a BATCH
// (02, A6), "erases those copies".
#[tactic(auto, unfolding(protocol::specs::Client::swept))]
pub fn sweep(setup: Setup, g: Sweep, c: Copy, object: usize) -> Copy
    ensures { result ≡ swept setup g c object }
{
    match g {
        Sweep::Keep => c,
        Sweep::Expire(v) => {
            if volume_of(setup, object) == v {
                Copy { expiry: 0, ..c }
            } else {
                c
            }
        }
        Sweep::Forget(set) => {
            if sets::contains(set, object) {
                fresh_copy()
            } else {
                c
            }
        }
        Sweep::Erase => fresh_copy(),
    }
}
