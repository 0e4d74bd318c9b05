ghost use Rattle.std.specs.Prelude.{◌≡◌};
ghost use Rattle.protocol.specs.Client as client;

use client_sweeps::{stop_at, swept_at};
use protocol::records::Copy;
use protocol::setup::Setup;
use protocol::step::Sweep;

// Sweeps one client's copies, which begin at `first`: sets a volume's "object expiries to 0", or erases all copies, since after a restart "only its next
// request number remains".
pub fn sweep(copies: &mut [Copy], setup: Setup, g: Sweep, first: usize)
    ensures { copies.new ≡ client.swept_all setup g first copies.old }
{
    let to = stop_at(setup, g, first, copies.len());
    for k in first..to {
        copies[k] = swept_at(setup, g, copies[k], k, first);
    }
}
