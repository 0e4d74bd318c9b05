// Thin functions over the client records that a caller lends: one record, or the slice of all. Covered functions, called on values, make the decisions.
#![tactic(auto)]

pub mod copies;
pub mod list;
pub mod requests;
pub mod sweep;
pub mod turn;
