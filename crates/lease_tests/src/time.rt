// Compares leases, guards and latest ends with the clock, and computes the latest end client by client.
ghost use Rattle.std.specs.Prelude.{◌≡◌, not};
ghost use Rattle.protocol.specs.Leases.{server_alive, end_over};
ghost use Rattle.lease_tests.specs.Parts.{waits_by, delays_by, outlast_by, ages_by};

// "A lease is alive when its expiry is greater than the clock."
pub fn server_alive(clock: u32, expiry: u32) -> bool
    ensures { result ≡ server_alive clock expiry }
{
    clock < expiry
}

// "clock at or past guard"
pub fn guard_passed(clock: u32, guard: u32) -> bool
    ensures { result ≡ not (server_alive clock guard) }
{
    !server_alive(clock, guard)
}

// "whose latest end is below the clock"
pub fn end_over(clock: u32, end: u32) -> bool
    ensures { result ≡ end_over clock end }
{
    end < clock
}

// Returns whether a write waits for a client: both its leases are alive. 02, A6: "a reachable dash with a live object lease and a dead volume lease is no
// longer waited for".
pub fn waits(clock: u32, object_lease: u32, volume_lease: u32) -> bool
    ensures { result ≡ waits_by clock object_lease volume_lease }
{
    let object = server_alive(clock, object_lease);
    let volume = server_alive(clock, volume_lease);
    object & volume
}

// Returns whether a write is noted for a client (02, A6): "a reachable dash with a live object lease and a dead volume lease".
pub fn delays(clock: u32, object_lease: u32, unreachable: bool, volume_lease: u32) -> bool
    ensures { result ≡ delays_by clock object_lease unreachable volume_lease }
{
    let object = server_alive(clock, object_lease);
    let volume = server_alive(clock, volume_lease);
    object & (!volume & !unreachable)
}

// Returns whether a client with these notes is marked (02, A6): "A clock step to volume expiry + d or later .. marks a noted dash unreachable." Without a
// sum, so that any numbers are accepted.
pub fn ages(clock: u32, notes: u32, volume_lease: u32, delay: u32) -> bool
    ensures { result ≡ ages_by clock notes volume_lease delay }
{
    if clock < delay {
        return false;
    }
    (notes != 0) & (volume_lease <= clock - delay)
}

// Extends the latest end by one client (02, A3): "over the waiting dashes, the lesser of that dash's volume and object expiry", if that is later.
pub fn outlast(end: u32, waiting: bool, volume_lease: u32, object_lease: u32) -> u32
    ensures { result ≡ outlast_by end waiting volume_lease object_lease }
{
    if waiting {
        return end.max(volume_lease.min(object_lease));
    }
    end
}
