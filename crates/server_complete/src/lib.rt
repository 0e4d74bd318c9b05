// Completing writes at the server (01, "Steps"): the write of one object, or in object order all that a clock step or a DROPPED completes.
#![tactic(auto)]

pub mod completion;
pub mod settle;
