// Expansions on the work area.
#![tactic(auto)]

pub mod expansions;
