// Reads and stores the clients' records in the words: copies, client by client in object order, and one request per client.
#![tactic(auto)]

pub mod copies;
pub mod requests;
