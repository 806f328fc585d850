// Boards, leads and cells of a plan.
#![tactic(auto)]

pub mod places;
