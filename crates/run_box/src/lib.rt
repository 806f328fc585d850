// A board's box of a choice's cells.
#![tactic(auto)]

pub mod points;
