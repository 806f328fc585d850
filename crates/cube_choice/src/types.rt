ghost use Rattle.std.specs.Prelude.{◌≡◌, min, eqb};
ghost use Rattle.cube_spec.specs.Limits.{axis_limit};
ghost use Rattle.cube_spec.specs.Choices.{keeps, full_mask, without_mask, grand_mask, counted_cells};

// Where a count of cells is cut, far above that of accepted lengths. It is below 2^32, so that its product with any length fits 64 bits.
pub const CELL_CAP: u64 = 4_294_967_295;

// A choice: the set of kept axes, bit d of the mask for axis d.
#[derive(Clone, Copy, Debug, PartialEq, Eq)]
pub struct Choice {
    pub mask: u8,
}

impl Choice {
    // The grand total, which keeps no axis.
    pub const GRAND: Choice = Choice { mask: 0 };

    // The choice that keeps all axes, of which there are at most 8.
    pub fn full(axes: u8) -> Choice
        ensures { result.mask ≡ full_mask (min axes axis_limit) }
    {
        Choice {
            mask: ((1u16 << axes.min(8)) - 1) as u8,
        }
    }

    // Is this the grand total?
    pub fn is_grand(self) -> bool
        ensures { result ≡ eqb self.mask grand_mask }
    {
        self == Choice::GRAND
    }

    // Is an axis kept?
    pub fn keeps(self, axis: u8) -> bool
        ensures { result ≡ keeps self.mask axis }
    {
        axis < 8 && (self.mask >> axis) & 1 == 1
    }

    // The choice with an axis summed out too.
    pub fn without(self, axis: u8) -> Choice
        ensures { result.mask ≡ without_mask self.mask axis }
    {
        if !self.keeps(axis) {
            return self;
        }
        Choice {
            mask: self.mask - (1 << axis),
        }
    }

    // How many cells the choice has, over axes of these lengths, cut at the cap. No choice keeps an axis past the eighth.
    pub fn cells(self, lengths: &[u32]) -> u64
        ensures { result ≡ counted_cells lengths.now self.mask }
    {
        let mut count: u64 = 1;
        for axis in 0..lengths.len().min(8) {
            if self.keeps(axis as u8) {
                count = CELL_CAP.min(count * u64::from(lengths[axis]));
            }
        }
        count
    }
}
