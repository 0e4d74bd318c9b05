// Receives messages at a client (01, "Messages received"), and stores what it knows of a volume.
#![tactic(auto)]

pub mod receive;
pub mod view;
