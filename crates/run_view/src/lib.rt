// The entries that show a finished choice.
#![tactic(auto)]

pub mod types;
pub mod viewing;
