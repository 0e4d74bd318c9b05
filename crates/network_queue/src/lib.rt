// The message list in the words and values (01, "Tables"): reading the message at a place, removing one, doubling one.
#![tactic(auto)]

pub mod doubling;
pub mod list;
pub mod removal;
