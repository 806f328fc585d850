// How many steps a plan has, and the tallies over its axes.
#![tactic(auto)]

pub mod counts;
