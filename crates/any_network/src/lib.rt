#![tactic(auto)]

// Demand 3 over any network: every message ever sent may arrive any number of times, in any order, or never. It stands in specs/; there is no code.
