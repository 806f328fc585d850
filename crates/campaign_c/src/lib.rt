// The static library for C: the entries of `campaign` under their names, each with the clauses that it has there.
#![tactic(auto)]

pub mod links;
pub mod plans;
pub mod racks;
pub mod runs;
pub mod tapes;
