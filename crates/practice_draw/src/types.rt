// What is drawn before the points: the lengths, p, how many points there are, and the state that their draws go on from. The lengths
// stand in eight slots, since they are given by value and nothing is allocated.
#[derive(Clone, Copy, Debug, PartialEq, Eq)]
pub struct Shape {
    pub axes: u8,
    pub lengths: [u32; 8],
    pub p: u8,
    pub points: u32,
    pub state: u32,
}
