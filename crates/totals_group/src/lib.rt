// A run taken from one finish to the next.
#![tactic(auto)]

pub mod groups;
