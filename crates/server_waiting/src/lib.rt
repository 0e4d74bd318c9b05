// Which clients a standing write waits for (01, "Steps" 4), and until when (02, A3).
#![tactic(auto)]

pub mod clients;
pub mod end;
