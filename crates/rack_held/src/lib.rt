// What a board holds.
#![tactic(auto)]

pub mod holds;
