// The cells of a child on one board, and the regions of a share that they stand in.
#![tactic(auto)]

pub mod forming;
pub mod shares;
