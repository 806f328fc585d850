// The step at a position.
#![tactic(auto)]

pub mod steps;
