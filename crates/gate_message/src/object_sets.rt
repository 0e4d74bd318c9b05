// Question 1 for a set of objects (02, A6), once the setup is in range.
ghost use Rattle.std.specs.Prelude.{true, ◌≡◌};
ghost use Rattle.protocol.specs.Setup.{in_range, objects_in};
ghost use Rattle.protocol.specs.Sound.{set_sound};

use protocol::setup::Setup;

// Returns the set of the volume's objects.
fn objects_in(setup: Setup, volume: usize) -> u32
    requires { in_range setup ≡ true }
    ensures { result ≡ objects_in setup volume }
{
    let objects = setup.objects as usize;
    let mut set = 0;
    for object in 0..objects {
        set = sets::with_if(set, object, usize::from(setup.volume[object]) == volume);
    }
    set
}

// Returns whether a set of the volume is sound: "A set bit that is no object of its volume makes tables unsound". Most sets are empty, and are not asked
// further.
pub fn set_sound(setup: Setup, volume: usize, set: u32) -> bool
    requires { in_range setup ≡ true }
    ensures { result ≡ set_sound setup volume set }
{
    if set == 0 {
        return true;
    }
    sets::within(set, objects_in(setup, volume))
}
