// What was read of the input: how many bytes stand at the start of a space, and whether the input ended after them, by what `read` answered.
// A struct and no enum, since there is a count in either case.
#[derive(Clone, Copy, Debug, PartialEq, Eq)]
pub struct Opening {
    pub used: usize,
    pub ended: bool,
}
