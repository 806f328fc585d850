use cube_choice::types::Choice;

// A transfer: all cells of the choice that the sender has are added to the receiver's.
#[derive(Clone, Copy, Debug, PartialEq, Eq)]
pub struct Transfer {
    pub sender: u32,
    pub receiver: u32,
    pub choice: Choice,
    pub values: u64,
}

// A step of a plan's list, or that all are taken.
#[derive(Clone, Copy, Debug, PartialEq, Eq)]
pub enum Step {
    Expand(Choice),
    Transfer(Transfer),
    Finish(Choice),
    Done,
}
