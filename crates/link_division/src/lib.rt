// A division's cost, the division after another, and the first cheapest of so many.
#![tactic(auto)]

pub mod pricing;
pub mod stepping;
pub mod trying;
