// Cells that stand side by side: sums modulo 2^64, and rows.
#![tactic(auto)]

pub mod addend;
pub mod adding;
pub mod combs;
