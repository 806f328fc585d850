// The printed lines, as bytes at the start of a lent buffer.
#![tactic(auto)]

pub mod printing;
pub mod reports;
