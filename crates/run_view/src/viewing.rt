// The entries that show a board's cells of a finished choice.
ghost use Rattle.std.specs.Prelude.{◌≡◌, ℕ, ◌+◌, ◌*◌, ◌^◌, ◌≤◌, ◌<◌, length};
ghost use Rattle.cube_spec.specs.Refusals.{refused_by};
ghost use Rattle.plan_spec.specs.Plans.{lists_of, board_count};
ghost use Rattle.plan_spec.specs.Refusals.{plan_refusal};
ghost use Rattle.rack_spec.specs.Grids.{boards, share};
ghost use Rattle.rack_spec.specs.Finding.{plan_grid};
ghost use Rattle.run_spec.specs.Entries.{view_refusal, viewing};
ghost use Rattle.run_view.specs.Places.{part_of};

use crate::types::Part;
use cube_spec::refusals::Refusal;
use plan_check::check_plan;
use plan_spec::types::Plan;
use rack_count::counts::steps_of;
use rack_grid::places::{cells_of, is_lead, next_of, region_at};
use rack_spec::types::Step;
use run_check::area_of;
use run_finish::{is_finished, step_before};

// 3 to 6, 8, 9, 11, 12, as the entry beside `view`.
pub fn check_view(plan: Plan, work: &[i64], position: u64, board: u32) -> Result<(), Refusal>
    ensures { refused_by result ≡ view_refusal plan (length work.now) position board }
{
    check_plan(plan)?;
    if (work.len() as u64) < area_of(plan) {
        return Err(Refusal::Memory);
    }
    if steps_of(plan) < position {
        return Err(Refusal::Position);
    }
    if !is_finished(plan, position) {
        return Err(Refusal::Position);
    }
    if 1 << plan.p <= board {
        return Err(Refusal::Position);
    }
    Ok(())
}

// Where a board's cells of the choice that the position finishes stand in the work area: no cells for a board that is no lead, as the promises and C's entry have it.
pub fn part_of(plan: Plan, position: u64, board: u32) -> Part
    requires { (plan_refusal plan ≡ 0) × (board < board_count (lists_of plan)) }
    ensures { (result ≡ part_of (plan_grid plan) position board) × (result.start + result.cells ≤ boards (plan_grid plan) * share (plan_grid plan)) × (result.start + result.cells < 2 ^ 39) }
{
    let Step::Finish(choice) = step_before(plan, position) else {
        return Part { start: 0, cells: 0 };
    };
    let board = u64::from(board);
    if !is_lead(plan, choice, board) {
        return Part { start: 0, cells: 0 };
    }
    Part {
        start: region_at(plan, board, next_of(plan, choice) - 1),
        cells: cells_of(plan, choice, board),
    }
}

// A board's cells of the choice that the position finishes, as a part of the work area itself: empty on a refusal, and for a board that is no lead.
pub fn view(plan: Plan, work: &[i64], position: u64, board: u32) -> &[i64]
    ensures { result.now ≡ viewing plan work.now position board }
{
    let Ok(()) = check_view(plan, work, position, board) else {
        return &work[..0];
    };
    let part = part_of(plan, position, board);
    let start = part.start as usize;
    let end = start + part.cells as usize;
    &work[start..end]
}
