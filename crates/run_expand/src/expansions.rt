// An expansion on the work area.
ghost use Rattle.std.specs.Prelude.{◌≡◌, [], ◌≤◌, ◌<◌, length};
ghost use Rattle.cube_spec.specs.Boxes.{table};
ghost use Rattle.cube_spec.specs.Choices.{points};
ghost use Rattle.cube_spec.specs.Tree as Tree;
ghost use Rattle.plan_spec.specs.Plans.{lists_of};
ghost use Rattle.rack_spec.specs.Steps.{expand};
ghost use Rattle.rack_spec.specs.Finding.{plan_grid, summed_in, lead_at};
ghost use Rattle.run_spec.specs.Memory.{read, stepped};
ghost use Rattle.run_spec.specs.Expansions.{children_to, Expands, Regioned, Strides};
ghost use Rattle.run_spec.specs.Taking.{Taking};

use cube_choice::types::Choice;
use plan_spec::types::Plan;
use rack_grid::places::{board_of, labels_of, lead_labels, leads_of, next_of};
use run_box::points::{extents_of, first_cell, strides_of};
use run_child::forming::{form_cells, form_points};
use run_child::shares::{Regions, regions_of};

// All children on the lead of a rank, of a choice whose cells stand in the work area.
fn expand_cells(
    plan: Plan,
    choice: Choice,
    next: usize,
    regions: Regions,
    rank: u64,
    work: &mut [i64],
)
    requires { (Expands plan choice.mask rank (length work.old)) × (next ≡ Tree.next (summed_in plan choice.mask)) × (0 < next) × (next ≤ plan.axes) × (Regioned plan regions.share regions.starts) }
    ensures { work.new ≡ table (length work.old) (children_to (plan_grid plan) (read []) (summed_in plan choice.mask) (lead_at (plan_grid plan) (summed_in plan choice.mask) rank) (plan_grid plan).axes (read work.old)) }
{
    let labels = lead_labels(plan, choice, rank);
    let board = board_of(plan, labels);
    let n = plan.axes as usize;
    for j in next..n {
        form_cells(plan, choice, next, regions, board, labels, j, work);
    }
}

// And of the root, whose leads are all boards, each of the rank that is its number.
fn expand_points(
    plan: Plan,
    root: Choice,
    regions: Regions,
    strides: [usize; 8],
    board: u64,
    array: &[i32],
    work: &mut [i64],
)
    requires { (Expands plan root.mask board (length work.old)) × (Tree.next (summed_in plan root.mask) ≡ 0) × (points (lists_of plan).lengths ≡ length array.now) × (Regioned plan regions.share regions.starts) × (Strides plan root.mask strides) }
    ensures { work.new ≡ table (length work.old) (children_to (plan_grid plan) (read array.now) (summed_in plan root.mask) (lead_at (plan_grid plan) (summed_in plan root.mask) board) (plan_grid plan).axes (read work.old)) }
{
    let labels = labels_of(plan, board);
    let extents = extents_of(plan, root, labels);
    let first = first_cell(plan, root, strides, labels);
    let n = plan.axes as usize;
    for j in 0..n {
        form_points(
            plan, root, regions, board, extents, strides, first, j, array, work,
        );
    }
}

// The lead of a rank: the root's children are summed from the array, another choice's from the work area.
fn expand_lead(
    plan: Plan,
    choice: Choice,
    next: usize,
    regions: Regions,
    strides: [usize; 8],
    rank: u64,
    array: &[i32],
    work: &mut [i64],
)
    requires { (Expands plan choice.mask rank (length work.old)) × (next ≡ Tree.next (summed_in plan choice.mask)) × (next ≤ plan.axes) × (points (lists_of plan).lengths ≡ length array.now) × (Regioned plan regions.share regions.starts) × (Strides plan choice.mask strides) }
    ensures { work.new ≡ table (length work.old) (children_to (plan_grid plan) (read array.now) (summed_in plan choice.mask) (lead_at (plan_grid plan) (summed_in plan choice.mask) rank) (plan_grid plan).axes (read work.old)) }
{
    if next == 0 {
        expand_points(plan, choice, regions, strides, rank, array, work);
    } else {
        expand_cells(plan, choice, next, regions, rank, work);
    }
}

// Each board with label 0 on every summed axis sums its portion into all children. What boards and children have in common is worked out once.
pub fn expand_all(plan: Plan, choice: Choice, array: &[i32], work: &mut [i64])
    requires { (Taking plan (expand (summed_in plan choice.mask)) (length work.old)) × (points (lists_of plan).lengths ≡ length array.now) }
    ensures { work.new ≡ stepped (plan_grid plan) array.now (expand (summed_in plan choice.mask)) work.old }
{
    let next = next_of(plan, choice);
    let regions = regions_of(plan);
    let strides = strides_of(plan, choice);
    let leads = leads_of(plan, choice);
    for rank in 0..leads {
        expand_lead(plan, choice, next, regions, strides, rank, array, work);
    }
}
