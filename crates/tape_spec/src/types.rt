// What one scan of a tape tells: how many axes it names, the first eight lengths, p, how many points it holds and how many commands it has.
// The lengths stand in an array of the fixed size, since the axes can pass it.
#[derive(Clone, Copy, Debug, PartialEq, Eq)]
pub struct Scan {
    pub axes: u32,
    pub lengths: [u32; 8],
    pub p: u8,
    pub points: u64,
    pub commands: u64,
}

// A command of a tape. The last number of each case is the position after the command.
#[derive(Clone, Copy, Debug, PartialEq, Eq)]
pub enum Command {
    // 41: an axis length.
    Axis(u16, usize),
    // 42: p.
    Boards(u8, usize),
    // 56 and 52: how often a point stands, and the point.
    Points(usize, i32, usize),
    // 4D and 4B: the command's byte, and the four bytes of the float as a number.
    Float(u8, u32, usize),
    // 45.
    End(usize),
}

// How many points the rest of a tape holds, and how many commands there are to its end.
#[derive(Clone, Copy, Debug, PartialEq, Eq)]
pub struct Count {
    pub points: u64,
    pub commands: u64,
}
