// Question 1 for one message and for one set of objects, passed by value (01, "Questions at the gate").
#![tactic(auto)]

pub mod messages;
pub mod object_sets;
