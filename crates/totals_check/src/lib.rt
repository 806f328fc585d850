// What the program asks of a tape before it runs.
#![tactic(auto)]

pub mod judging;
