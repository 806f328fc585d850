// The cells of a choice, copied lead by lead.
#![tactic(auto)]

ghost use Rattle.std.specs.Prelude.{◌≡◌, true, ◌-◌, ◌*◌, ◌≤◌, ◌<◌, length};
ghost use Rattle.cube_spec.specs.Limits.{point_limit};
ghost use Rattle.cube_spec.specs.Tree.{next};
ghost use Rattle.plan_spec.specs.Plans.{lists_of};
ghost use Rattle.rack_spec.specs.Grids.{boards, lead, region_start, share, index};
ghost use Rattle.rack_spec.specs.Finding.{plan_grid, summed_in, leads, lead_at};
ghost use Rattle.run_spec.specs.Memory.{read};
ghost use Rattle.run_spec.specs.Gather.{gathered};
ghost use Rattle.run_spec.specs.Copies.{one_board, Copying};
ghost use Rattle.run_spec.specs.Expansions.{Own, Strides};

use cell_copy::put_box;
use cube_choice::types::Choice;
use plan_region::{Region, region_of};
use plan_spec::types::Plan;
use rack_grid::places::{board_of, lead_labels, leads_of, next_of};
use run_box::points::{extents_of, first_cell, strides_of};
use run_merge::merging::merge;

// A lead's cells, which stand side by side from src on, go to their places in the result. Its labels and the choice's strides are lent.
fn copy_lead(
    plan: Plan,
    choice: Choice,
    board: u64,
    labels: [u64; 8],
    strides: [usize; 8],
    src: u64,
    work: &[i64],
    res: &mut [i64],
)
    requires { (Copying plan choice.mask (length work.now) (length res.old)) × (board < boards (plan_grid plan)) × (lead (plan_grid plan) (summed_in plan choice.mask) board ≡ true)
        × (Own plan board labels) × (Strides plan choice.mask strides)
        × (src ≡ index (plan_grid plan) board (next (summed_in plan choice.mask) - 1) 0) }
    ensures { res.new ≡ one_board (lists_of plan).lengths (plan_grid plan) (summed_in plan choice.mask) board (read work.now) res.old }
{
    let mut extents = extents_of(plan, choice, labels);
    let at = first_cell(plan, choice, strides, labels);
    let mut apart = strides;
    let n = plan.axes as usize;
    // Fewer and longer axes: put_box then copies long rows.
    let k = merge(&mut extents, &mut apart, n);
    put_box(
        res,
        work,
        &extents,
        &apart,
        n - k,
        k,
        at as usize,
        src as usize,
    );
}

// The cells of the lead of a rank, which stand in the choice's region.
fn copy_rank(
    plan: Plan,
    choice: Choice,
    rank: u64,
    strides: [usize; 8],
    region: Region,
    work: &[i64],
    res: &mut [i64],
)
    requires { (Copying plan choice.mask (length work.now) (length res.old)) × (rank < leads (plan_grid plan) (summed_in plan choice.mask))
        × (Strides plan choice.mask strides) × (region.share ≡ share (plan_grid plan)) × (region.start ≡ region_start (plan_grid plan) (next (summed_in plan choice.mask) - 1))
        × (region.share ≤ point_limit * 8) × (region.start ≤ point_limit * 8) }
    ensures { res.new ≡ one_board (lists_of plan).lengths (plan_grid plan) (summed_in plan choice.mask) (lead_at (plan_grid plan) (summed_in plan choice.mask) rank) (read work.now) res.old }
{
    let labels = lead_labels(plan, choice, rank);
    let board = board_of(plan, labels);
    let src = board * region.share + region.start;
    copy_lead(plan, choice, board, labels, strides, src, work, res);
}

// The leads' cells, one lead after another.
pub fn copy_all(plan: Plan, choice: Choice, work: &[i64], res: &mut [i64])
    requires { Copying plan choice.mask (length work.now) (length res.old) }
    ensures { res.new ≡ gathered (lists_of plan).lengths (plan_grid plan) (summed_in plan choice.mask) (read work.now) }
{
    let strides = strides_of(plan, choice);
    let next = next_of(plan, choice);
    let region = region_of(plan, next - 1);
    let leads = leads_of(plan, choice);
    for rank in 0..leads {
        copy_rank(plan, choice, rank, strides, region, work, res);
    }
}
