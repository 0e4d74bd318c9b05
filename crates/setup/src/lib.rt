// Checks that a setup is in range, and makes fresh records (01, "Tables").
#![tactic(auto)]

pub mod fresh;
pub mod limits;

ghost use Rattle.std.specs.Prelude.{◌<◌, ltb, eqb, cond, ◌≡◌};
ghost use Rattle.laws.specs.Loop.{all_from};
ghost use Rattle.protocol.specs.Setup.{between, volume_fits, in_range};
ghost use Rattle.setup.specs.Limits.{OBJECTS};

use protocol::setup::Setup;

fn between(low: u32, high: u32, n: u32) -> bool
    ensures { result ≡ between low high n }
{
    (low <= n) & (n <= high)
}

// Returns whether slot `o` may hold volume `v`: "each object's volume (0 past the count)" exists.
fn volume_fits(o: usize, v: u8, objects: u32, volumes: u32) -> bool
    ensures { result ≡ cond (ltb o objects) (ltb v volumes) (eqb v 0) }
{
    if o < objects as usize {
        return u32::from(v) < volumes;
    }
    v == 0
}

// Returns whether all slots fit: "each object's volume (0 past the count)".
fn volumes_fit(setup: Setup) -> bool
    ensures { result ≡ all_from (volume_fits setup) 0 OBJECTS }
{
    let mut ok = true;
    for o in 0..limits::OBJECTS {
        ok &= volume_fits(o, setup.volume[o], setup.objects, setup.volumes);
    }
    ok
}

// Answers "setup in range?": "1 to 16 dashes, 1 to 8 volumes", the objects, which "now end at 28" (02, A6), their volumes, "volume lease tv 1 to 3,600;
// object lease t 1 to 1,000,000; message timeout m 1 to 60", and the delay: "d in setup, 1 to 65,535". Accepts any input.
pub fn in_range(setup: Setup) -> bool
    ensures { result ≡ in_range setup }
{
    let counts = between(1, limits::CLIENTS as u32, setup.clients)
        & between(1, limits::VOLUMES as u32, setup.volumes)
        & between(1, limits::OBJECTS as u32, setup.objects);
    let ticks = counts
        & between(1, 3600, setup.tv)
        & between(1, 1000000, setup.t)
        & between(1, 60, setup.m);
    ticks & volumes_fit(setup) & between(1, 65535, setup.delay)
}
