// The engine as a library for C: every entry over slices and numbers. Each answers 0, or the refusal that is due first in the papers' list, of 14 and 15
// that of the first such reading; on a refusal nothing that was lent is changed. A plan comes in two slices: its axes, p, order and exponents in eighteen
// bytes, and eight lengths.
// The entries keep C's slices and numbers; the work of each is a function over a plan that gives a Result, and `answer` tells C its number.
#![tactic(auto)]

pub mod links;
pub mod plans;
pub mod racks;
pub mod runs;
pub mod tapes;
