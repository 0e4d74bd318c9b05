// RENEW received at the server (01, "Messages received"): an old or doubled one is ignored, a new one is answered by the first rule that fits.
#![tactic(auto)]

pub mod answer;
pub mod receive;
