// Sums over the shot points of the array, and how many they are, in one reading of the points.
#![tactic(auto)]

pub mod points;
pub mod rows;
pub mod runs;
pub mod summing;
pub mod tiles;
