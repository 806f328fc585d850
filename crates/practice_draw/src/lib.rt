// Practice campaigns from a seed number: the seed line, the draws, and the tape's bytes in a lent buffer.
#![tactic(auto)]

pub mod commands;
pub mod draws;
pub mod printing;
pub mod seeds;
pub mod tapes;
pub mod types;
