// The planner's division of its order.
#![tactic(auto)]

pub mod rule;
