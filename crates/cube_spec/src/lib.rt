#![tactic(auto)]

pub mod refusals;
