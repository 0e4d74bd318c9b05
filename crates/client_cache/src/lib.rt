// A client's copy of an object and its request, by value: whether the copy may be shown, and how both change.
#![tactic(auto)]

pub mod change;
pub mod copy;
pub mod request;
