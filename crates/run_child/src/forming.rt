// The cells of a child on one board.
ghost use Rattle.std.specs.Prelude.{◌≡◌, [], ◌<◌, length};
ghost use Rattle.cube_spec.specs.Boxes.{table};
ghost use Rattle.cube_spec.specs.Choices.{points};
ghost use Rattle.cube_spec.specs.Tree as Tree;
ghost use Rattle.plan_spec.specs.Plans.{lists_of};
ghost use Rattle.rack_spec.specs.Finding.{plan_grid, summed_in};
ghost use Rattle.run_spec.specs.Memory.{read};
ghost use Rattle.run_spec.specs.Expansions.{one_child, Forms, Own, Regioned, BoardBox};

use crate::shares::{Regions, region_in};
use cell_axis::sum_axis;
use cell_sum::summing::sum_box;
use cube_choice::types::Choice;
use plan_spec::types::Plan;
use rack_grid::places::{cells_between, extent_of};
use run_merge::merging::merge;

// Of a choice whose cells stand in the work area: they are (outer, extent, inner) around the axis at place j, which is summed out.
pub fn form_cells(
    plan: Plan,
    choice: Choice,
    next: usize,
    regions: Regions,
    board: u64,
    labels: [u64; 8],
    j: usize,
    work: &mut [i64],
)
    requires { (Own plan board labels) × (Forms plan choice.mask board j (length work.old)) × (next ≡ Tree.next (summed_in plan choice.mask)) × (0 < next) × (Regioned plan regions.share regions.starts) }
    ensures { work.new ≡ table (length work.old) (one_child (plan_grid plan) (read []) (summed_in plan choice.mask) board j (read work.old)) }
{
    let outer = cells_between(plan, choice, labels, 0, j);
    let extent = extent_of(plan, j, labels[j]);
    let inner = cells_between(plan, choice, labels, j + 1, plan.axes as usize);
    let src = region_in(regions, board, next - 1);
    let dst = region_in(regions, board, j);
    sum_axis(
        work,
        src as usize,
        dst as usize,
        outer as usize,
        extent as usize,
        inner as usize,
    );
}

// Of the root, whose cells are the points of the board's box of the array: a sum's points stand as far apart as neighbours on the axis.
// Extents and strides come apart, since strides are worked out once for all boards and extents for each.
pub fn form_points(
    plan: Plan,
    root: Choice,
    regions: Regions,
    board: u64,
    extents: [usize; 8],
    strides: [usize; 8],
    first: u64,
    j: usize,
    array: &[i32],
    work: &mut [i64],
)
    requires { (Forms plan root.mask board j (length work.old)) × (Tree.next (summed_in plan root.mask) ≡ 0) × (points (lists_of plan).lengths ≡ length array.now) × (Regioned plan regions.share regions.starts) × (BoardBox plan root.mask board extents strides first) }
    ensures { work.new ≡ table (length work.old) (one_child (plan_grid plan) (read array.now) (summed_in plan root.mask) board j (read work.old)) }
{
    let to = region_in(regions, board, j);
    let count = extents[j];
    let step = strides[j];
    // The child's own box has one position on the axis.
    let mut sides = extents;
    sides[j] = 1;
    let mut apart = strides;
    let n = plan.axes as usize;
    let d = merge(&mut sides, &mut apart, n);
    sum_box(
        work,
        array,
        &sides,
        &apart,
        n - d,
        d,
        first as usize,
        count,
        step,
        to as usize,
    );
}
