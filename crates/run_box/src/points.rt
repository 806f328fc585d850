// A board's box of a choice's cells: its extents, the strides of its axes, and its first cell. Axes go by their place in the plan; the root's cells are the points of the array.
ghost use Rattle.std.specs.Prelude.{◌≡◌, ◌*◌, ◌≤◌, ◌<◌, get_or};
ghost use Rattle.cube_spec.specs.Boxes.{sum_n, table};
ghost use Rattle.cube_spec.specs.Limits.{point_limit, padded};
ghost use Rattle.plan_spec.specs.Refusals.{plan_refusal};
ghost use Rattle.rack_spec.specs.Grids.{board_with, box};
ghost use Rattle.rack_spec.specs.Finding.{plan_grid, summed_in, Labels};
ghost use Rattle.run_spec.specs.Copies.{kept_along, cell_stride};
ghost use Rattle.run_spec.specs.Expansions.{Strides};

use cube_choice::types::Choice;
use plan_portion::{kept_portion, portion_start};
use plan_spec::types::Plan;

// The length of an axis by its number, and 1 where the choice sums it out.
fn kept_length(plan: Plan, choice: Choice, a: usize) -> u64
    requires { (plan_refusal plan ≡ 0) × (a < plan.axes) }
    ensures { result ≡ kept_along (plan_grid plan) (summed_in plan choice.mask) a }
{
    if choice.keeps(a as u8) {
        plan.lengths[a] as u64
    } else {
        1
    }
}

// How far apart neighbours on the axis at place d stand: the choice's cells along the axes after it.
fn stride_of(plan: Plan, choice: Choice, d: usize) -> u64
    requires { (plan_refusal plan ≡ 0) × (d < plan.axes) }
    ensures { (result ≡ cell_stride (plan_grid plan) (summed_in plan choice.mask) d) × (result ≤ point_limit) }
{
    let mut count: u64 = 1;
    let after = plan.order[d] as usize + 1;
    for a in after..plan.axes as usize {
        count *= kept_length(plan, choice, a);
    }
    count
}

// All strides.
pub fn strides_of(plan: Plan, choice: Choice) -> [usize; 8]
    requires { plan_refusal plan ≡ 0 }
    ensures { result ≡ padded (table plan.axes (cell_stride (plan_grid plan) (summed_in plan choice.mask))) }
{
    let mut strides = [0usize; 8];
    for d in 0..plan.axes as usize {
        strides[d] = stride_of(plan, choice, d) as usize;
    }
    strides
}

// All extents of the board with these labels, 1 on a summed axis.
pub fn extents_of(plan: Plan, choice: Choice, labels: [u64; 8]) -> [usize; 8]
    requires { (plan_refusal plan ≡ 0) × (Labels plan labels) }
    ensures { result ≡ padded (table plan.axes (box (plan_grid plan) (summed_in plan choice.mask) (board_with (plan_grid plan) (λ i. get_or labels i 0)))) }
{
    let mut extents = [0usize; 8];
    for d in 0..plan.axes as usize {
        let axis = plan.order[d];
        let kept = choice.keeps(axis);
        let i = axis as usize;
        let extent = kept_portion(kept, plan.lengths[i], plan.exponents[i], labels[d]);
        extents[d] = extent as usize;
    }
    extents
}

// Where the first cell of the board with these labels stands. The strides are those of the choice, which is lent for the contract alone.
pub fn first_cell(plan: Plan, choice: Choice, strides: [usize; 8], labels: [u64; 8]) -> u64
    requires { (plan_refusal plan ≡ 0) × (Labels plan labels) × (Strides plan choice.mask strides) }
    ensures { result ≡ sum_n plan.axes (λ d. (plan_grid plan).start d (get_or labels d 0) * cell_stride (plan_grid plan) (summed_in plan choice.mask) d) }
{
    let mut at: u64 = 0;
    for d in 0..plan.axes as usize {
        let i = plan.order[d] as usize;
        let start = portion_start(plan.lengths[i], plan.exponents[i], labels[d]);
        at += start * (strides[d] as u64);
    }
    at
}
