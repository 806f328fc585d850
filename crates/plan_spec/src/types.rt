// A plan, lent and returned by value. Lengths and exponents are by axis number; slots past the last axis are zero.
// Lengths are wider than 16 bits, so that one over 65,535 can be given and refused.
#[derive(Clone, Copy)]
pub struct Plan {
    pub axes: u8,
    pub p: u8,
    pub lengths: [u32; 8],
    pub order: [u8; 8],
    pub exponents: [u8; 8],
}

// What a plan costs: values moved, cells added up, and A, the cells of a board's share.
#[derive(Clone, Copy)]
pub struct Prices {
    pub moved: u64,
    pub added: u64,
    pub share: u64,
}

// A plan's prices, and whether it has the fewest cells added up.
#[derive(Clone, Copy)]
pub struct Marked {
    pub prices: Prices,
    pub fewest: bool,
}

// The answer of planning: the plan, its prices and how many of the boards asked for stand idle.
#[derive(Clone, Copy)]
pub struct Planned {
    pub plan: Plan,
    pub prices: Prices,
    pub idle: u32,
}

// The axis numbers and the exponents, both in plan order.
#[derive(Clone, Copy)]
pub struct Arrangement {
    pub order: [u8; 8],
    pub exponents: [u8; 8],
}

// An axis in plan order with its weight, for the rule that raises exponents.
#[derive(Clone, Copy)]
pub struct Entry {
    pub weight: u64,
    pub len: u32,
    pub exp: u8,
}
