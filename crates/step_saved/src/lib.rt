// Saves and returns (02, A7), decided by value: whether the saved states are sound (`sound`), what a step does to them (`plan`), and doing it to the
// words and values (`apply`). The public step asks all three; a run, whose saved states are sound, only the last two.
#![tactic(auto)]

pub mod apply;
pub mod plan;
pub mod sound;
