// T, the step at a position and held, for C.
ghost use Rattle.std.specs.Prelude.{◌≡◌, length};
ghost use Rattle.cube_spec.specs.Refusals.{refused_by};
ghost use Rattle.campaign_slices.specs.Racks.{plan_from, count_refusal, at_refusal, hold_refusal, counted, stepped_at, held};

use campaign_slices::{plan_from, put_number, put_step};
use cube_spec::refusals::{Refusal, answer};
use plan_check::check_plan;
use plan_spec::types::Plan;
use rack_count::counts::{step_count, steps_by, tallies_of};
use rack_find::steps::step_by;
use rack_held::holds::held;

fn count_steps(plan: Plan, count: &mut [u64]) -> Result<(), Refusal>
    ensures { (refused_by result ≡ count_refusal plan (length count.old)) × (count.new ≡ counted plan count.old) }
{
    put_number(count, step_count(plan)?)
}

// T: a slice of one cell gets the number of steps.
#[unsafe(no_mangle)]
pub extern "C" fn campaign_step_count(small: &[u8], lengths: &[u32], count: &mut [u64]) -> u8
    ensures { (result ≡ count_refusal (plan_from small.now lengths.now) (length count.old))
        × (count.new ≡ counted (plan_from small.now lengths.now) count.old) }
{
    answer(count_steps(plan_from(small, lengths), count))
}

fn find_step(plan: Plan, position: u64, step: &mut [u64]) -> Result<(), Refusal>
    ensures { (refused_by result ≡ at_refusal plan position (length step.old)) × (step.new ≡ stepped_at plan position step.old) }
{
    check_plan(plan)?;
    let tallies = tallies_of(plan);
    if steps_by(plan, tallies) < position {
        return Err(Refusal::Position);
    }
    put_step(step, step_by(plan, tallies, position))
}

// The step at a position, done at T: a slice of five cells gets it.
#[unsafe(no_mangle)]
pub extern "C" fn campaign_step_at(
    small: &[u8],
    lengths: &[u32],
    position: u64,
    step: &mut [u64],
) -> u8
    ensures { (result ≡ at_refusal (plan_from small.now lengths.now) position (length step.old))
        × (step.new ≡ stepped_at (plan_from small.now lengths.now) position step.old) }
{
    answer(find_step(plan_from(small, lengths), position, step))
}

fn count_held(plan: Plan, position: u64, board: u32, cells: &mut [u64]) -> Result<(), Refusal>
    ensures { (refused_by result ≡ hold_refusal plan position board (length cells.old)) × (cells.new ≡ held plan position board cells.old) }
{
    put_number(cells, held(plan, position, board)?)
}

// Held: a slice of one cell gets the number of cells that a board holds at a position.
#[unsafe(no_mangle)]
pub extern "C" fn campaign_held(
    small: &[u8],
    lengths: &[u32],
    position: u64,
    board: u32,
    cells: &mut [u64],
) -> u8
    ensures { (result ≡ hold_refusal (plan_from small.now lengths.now) position board (length cells.old))
        × (cells.new ≡ held (plan_from small.now lengths.now) position board cells.old) }
{
    answer(count_held(plan_from(small, lengths), position, board, cells))
}
