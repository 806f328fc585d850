// What a controller asks for: the lengths in eight slots, the p used and the idle boards.
#[derive(Clone, Copy)]
pub struct Asked {
    pub used: u8,
    pub idle: u32,
    pub lengths: [u32; 8],
}
