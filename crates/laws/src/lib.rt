#![tactic(auto)]

// Laws that every crate above cites: loops over numbers, stores into tables, lists. They stand in specs/; there is no code.
