// The types of the protocol: what document 01 calls tables, messages, steps and answers. Its rules, its ledger and the proof of demand 3 stand in specs/.
#![tactic(auto)]

pub mod message;
pub mod records;
pub mod refusal;
pub mod setup;
pub mod step;
pub mod tables;
