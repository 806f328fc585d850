// Choices as callers hold them.
#![tactic(auto)]

pub mod types;
