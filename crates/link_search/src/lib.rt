// The search for a cheap division over links that cost unequally.
#![tactic(auto)]

pub mod searching;
