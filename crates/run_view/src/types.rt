// A part of a work area: its first cell, and how many cells it has.
#[derive(Clone, Copy, Debug, PartialEq, Eq)]
pub struct Part {
    pub start: u64,
    pub cells: u64,
}
