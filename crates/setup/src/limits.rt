// The limits that 01 names ("Tables", "Questions at the gate").

// the most clients and volumes that a setup has
pub const CLIENTS: usize = 16;

pub const VOLUMES: usize = 8;

// the most objects that it has: "objects now end at 28" (02, A6)
pub const OBJECTS: usize = 28;

// the places that the tables have for the objects, and for the objects of each client
pub const SLOTS: usize = 32;

// the places of the message list: "at most 64"
pub const PLACES: usize = 64;

// an epoch, a version or a request number that is below this can still grow
pub const LARGEST: u32 = 4294967295;

// the latest time that the clock can show
pub const LAST_CLOCK: u32 = 2147483647;

// the latest expiry, guard or latest end: the longest lease after the last clock
pub const LAST_END: u32 = 2148483647;
