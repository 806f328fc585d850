#![tactic(auto)]

pub mod planning;
