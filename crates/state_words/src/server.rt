// Offsets of the server's fields: per volume, per client, per client and volume, per object, per client and object; then a set of clients per object; last,
// per client and volume, a set of objects and a number.

// "Server, per volume: epoch (fresh 1), largest volume expiry VE, guard."
pub const VOLUME_EPOCH: usize = 578;

pub const VOLUME_EXPIRY: usize = 586;

pub const GUARD: usize = 594;

// "Per dash: highest request number seen."
pub const SEEN: usize = 602;

// "Per dash and volume: expiry, unreachable mark, offer number."
pub const SESSION_EXPIRY: usize = 618;

pub const UNREACHABLE: usize = 746;

pub const OFFER: usize = 874;

// "Per object: .. version (fresh 1), largest object expiry OE"
pub const VERSION: usize = 1002;

pub const OBJECT_EXPIRY: usize = 1034;

// "perhaps a standing write: .. latest end"
pub const STANDING: usize = 1066;

pub const END: usize = 1098;

// "Per dash and object: expiry."
pub const LEASE: usize = 1130;

// "perhaps a standing write: .. waiting dashes"
pub const WAITING: usize = 1642;

// 02, A6: "its list of notes for that volume"
pub const NOTES: usize = 1674;

// the number of "the batch last sent"
pub const BATCH: usize = 1802;

// in the values: "Per object: value (64 bits)"
pub const VALUE: usize = 64;

// in the values: "perhaps a standing write: value"
pub const PENDING: usize = 96;
