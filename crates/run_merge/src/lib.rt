// Boxes through strides: axes merged.
#![tactic(auto)]

pub mod merging;
