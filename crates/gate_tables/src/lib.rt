// Question 1 for the tables and messages in the words and values (01, "Questions at the gate").
#![tactic(auto)]

pub mod messages;
pub mod tables;
