// The entry that gathers a finished choice.
#![tactic(auto)]

pub mod copying;
