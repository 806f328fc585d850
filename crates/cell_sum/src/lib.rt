// Sums over points of the array.
#![tactic(auto)]

pub mod summing;
