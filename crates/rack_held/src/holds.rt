// How many cells a board holds at a position, found without listing.
ghost use Rattle.std.specs.Prelude.{◌≡◌, ◌-◌, ◌*◌, ◌≤◌, ◌<◌};
ghost use Rattle.cube_spec.specs.Limits.{point_limit};
ghost use Rattle.cube_spec.specs.Refusals.{reply_of};
ghost use Rattle.plan_spec.specs.Accepted.{Accepted};
ghost use Rattle.plan_spec.specs.Refusals.{plan_refusal};
ghost use Rattle.rack_spec.specs.Grids.{boards};
ghost use Rattle.rack_spec.specs.Held as Holding;
ghost use Rattle.rack_spec.specs.Finding.{plan_grid, summed_in, held_walk, Walking, Forming};
ghost use Rattle.rack_spec.specs.Answers.{holding};
ghost use Rattle.rack_count.specs.Tallied.{Tallied};

use cube_choice::types::Choice;
use cube_spec::refusals::Refusal;
use plan_check::check_plan;
use plan_spec::types::Plan;
use rack_count::counts::{Tallies, parts_of, steps_of, tallies_of, transfer_count, walk_count};
use rack_grid::places::{cells_of, is_lead};

// The cells of a child on a board, which forms them if it is a lead of the parent.
fn own_of(plan: Plan, parent: Choice, child: Choice, board: u64) -> u64
    requires { Forming plan parent.mask child.mask board }
    ensures { (result ≡ Holding.own (plan_grid plan) board (summed_in plan child.mask)) × (result ≤ point_limit) }
{
    if is_lead(plan, parent, board) {
        cells_of(plan, child, board)
    } else {
        0
    }
}

// What a board holds of the choices in the walk over the children of a choice from place d on, when `at` of its steps are taken.
fn held_walk(
    plan: &Plan,
    tallies: &Tallies,
    choice: Choice,
    d: usize,
    n: u64,
    at: u64,
    board: u64,
) -> u64
    requires { (Accepted plan.now) × (Walking plan.now choice.mask d n) × (board < boards (plan_grid plan.now)) × (Tallied plan.now tallies.now) }
    ensures { (result ≡ held_walk (plan_grid plan.now) board (plan.now.axes - d) d (summed_in plan.now choice.mask) at) × (result ≤ point_limit * (plan.now.axes - d)) }
{
    let axes = plan.axes as usize;
    if d == axes {
        return 0;
    }
    let child = choice.without(plan.order[d]);
    let own = own_of(*plan, choice, child, board);
    let more = n * parts_of(*plan, d);
    let later = walk_count(*plan, d + 1, more, *tallies);
    if at < later {
        return held_walk(plan, tallies, choice, d + 1, more, at, board) + own;
    }
    let before = later + transfer_count(*plan, d, n, *tallies);
    if at <= before {
        return own;
    }
    if d + 1 == axes {
        return 0;
    }
    let below = walk_count(*plan, d + 1, n, *tallies);
    if below + 1 < at - before {
        return 0;
    }
    held_walk(plan, tallies, child, d + 1, n, at - before - 1, board) + own
}

// At a position of the whole list.
pub fn held_at(plan: Plan, at: u64, board: u64) -> u64
    requires { (plan_refusal plan ≡ 0) × (board < boards (plan_grid plan)) }
    ensures { result ≡ Holding.held (plan_grid plan) at board }
{
    if at == 0 {
        return 0;
    }
    let root = Choice::full(plan.axes);
    let tallies = tallies_of(plan);
    held_walk(&plan, &tallies, root, 0, 1, at - 1, board)
}

// The public entry: the number of cells that a board holds at a position, or the refusal.
pub fn held(plan: Plan, position: u64, board: u32) -> Result<u64, Refusal>
    ensures { reply_of result ≡ holding plan position board }
{
    check_plan(plan)?;
    if steps_of(plan) < position {
        return Err(Refusal::Position);
    }
    if 1 << plan.p <= board {
        return Err(Refusal::Position);
    }
    Ok(held_at(plan, position, u64::from(board)))
}
