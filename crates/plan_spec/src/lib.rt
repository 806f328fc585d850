#![tactic(auto)]

pub mod types;
