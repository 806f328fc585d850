// A write failed after so many lines of a report were taken, one after the other from the first, by what `write` answered: `taken` is its answer to the
// line that is left, which stands here so that the clause can ask that it is no.
#[derive(Clone, Copy, Debug, PartialEq, Eq)]
pub struct Stopped {
    pub lines: u64,
    pub taken: bool,
}
