// Accepting a write at the server (01, "Steps" 4), and sending its INVALIDATEs.
#![tactic(auto)]

pub mod accept;
pub mod invalidates;
