// Facts about whole runs that no rule needs. They stand in specs/, above the rules, so that an edit of protocol does not prove them again. The code here is
// types, and the numbers of the reasons.
#![tactic(auto)]

pub mod reasons;
