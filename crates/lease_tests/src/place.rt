// Finds an object's place in the tables.
ghost use Rattle.std.specs.Prelude.{◌≡◌, true, ◌<◌};
ghost use Rattle.protocol.specs.Setup.{in_range};
ghost use Rattle.lease_tests.specs.Parts.{Placed};

use protocol::setup::Setup;

// Returns the object's volume, with the bounds that accesses to the tables need.
pub fn volume_of(setup: Setup, object: usize) -> usize
    requires setup_value { in_range setup ≡ true }
    requires object_lt_objects { object < setup.objects }
    ensures { Placed setup object result }
{
    usize::from(setup.volume[object])
}
