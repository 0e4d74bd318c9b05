// The rows of the message list: reading and storing a row of nine words, and moving rows down to close a gap.
#![tactic(auto)]

pub mod row;
pub mod shift;
