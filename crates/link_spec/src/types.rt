// The answer of the search: the exponents by axis number, their cost, a distance, and how many divisions were priced. No division, with any parents,
// costs less than the cost less the distance.
#[derive(Clone, Copy, Debug, PartialEq, Eq)]
pub struct Searched {
    pub exponents: [u8; 8],
    pub cost: u64,
    pub distance: u64,
    pub priced: u64,
}

// What a budget finds: the first cheapest division, its cost, how many were priced, and whether these were all.
#[derive(Clone, Copy, Debug, PartialEq, Eq)]
pub struct Tried {
    pub exponents: [u8; 8],
    pub cost: u64,
    pub priced: u64,
    pub all: bool,
}
