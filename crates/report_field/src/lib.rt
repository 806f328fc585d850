// Words and numbers as bytes at a place of a lent buffer; each function gives the place after what it put.
#![tactic(auto)]

pub mod fields;
pub mod numbers;
