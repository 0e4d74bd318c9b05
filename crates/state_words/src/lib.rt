// Lays out the whole state in two lent arrays of numbers: the offset of each field, the fresh state, and filling a part.
#![tactic(auto)]

pub mod client;
pub mod fresh;
pub mod network;
pub mod pass;
pub mod saved;
pub mod server;

use setup::limits::{CLIENTS, SLOTS, VOLUMES};

// the length of a field with one word for each client and volume
pub const CLIENT_VOLUMES: usize = CLIENTS * VOLUMES;

// the length of a field with one word for each client and object
pub const CLIENT_OBJECTS: usize = CLIENTS * SLOTS;

// the words hold all 32-bit numbers, flags and sets
pub const WORDS: usize = 3275;

pub type Words = [u32; WORDS];

// the values hold all 64-bit numbers
pub const VALUES: usize = 640;

pub type Values = [u64; VALUES];
