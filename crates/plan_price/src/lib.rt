// A plan's prices.
#![tactic(auto)]

pub mod pricing;
