// Stores all client records that a caller lends in the words, and loads them from there, since a saved state (02, A7) has them in the words.
#![tactic(auto)]

pub mod copies;
pub mod record;
pub mod requests;
