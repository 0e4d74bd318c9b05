// Compares leases, guards and latest ends with the clock, and looks up an object's volume.
#![tactic(auto)]

pub mod place;
pub mod time;
