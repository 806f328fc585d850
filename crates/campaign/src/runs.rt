// Step, view and gather on lent memory, for C.
ghost use Rattle.std.specs.Prelude.{◌≡◌, length};
ghost use Rattle.cube_spec.specs.Refusals.{refused_by};
ghost use Rattle.run_spec.specs.Entries.{gather_refusal, gathering};
ghost use Rattle.campaign_slices.specs.Racks.{plan_from};
ghost use Rattle.campaign.specs.Calls.{ran, running, part_refusal, parting};

use campaign_slices::{plan_from, put_pair, put_step};
use cube_spec::refusals::{Refusal, answer};
use plan_spec::types::Plan;
use rack_count::counts::tallies_of;
use run_check::check_step;
use run_gather::copying::gather;
use run_take::take;
use run_view::viewing::{check_view, part_of};

fn run(
    plan: Plan,
    array: &[i32],
    work: &mut [i64],
    position: &mut u64,
    step: &mut [u64],
) -> Result<(), Refusal>
    ensures { ran (refused_by result) work.new position.new step.new ≡ running plan array.now work.old position.old step.old }
{
    check_step(plan, array.len(), work.len(), *position)?;
    if step.len() != 5 {
        return Err(Refusal::Result);
    }
    let tallies = tallies_of(plan);
    put_step(step, take(plan, tallies, array, work, position))
}

// Takes the step at the position on a work area and moves the position; done at T. A slice of five cells gets what the step tells.
#[unsafe(no_mangle)]
pub extern "C" fn campaign_step(
    small: &[u8],
    lengths: &[u32],
    array: &[i32],
    work: &mut [i64],
    position: &mut u64,
    step: &mut [u64],
) -> u8
    ensures { ran result work.new position.new step.new
        ≡ running (plan_from small.now lengths.now) array.now work.old position.old step.old }
{
    answer(run(plan_from(small, lengths), array, work, position, step))
}

fn place(
    plan: Plan,
    work: &[i64],
    position: u64,
    board: u32,
    part: &mut [u64],
) -> Result<(), Refusal>
    ensures { (refused_by result ≡ part_refusal plan (length work.now) position board (length part.old))
        × (part.new ≡ parting plan (length work.now) position board part.old) }
{
    check_view(plan, work, position, board)?;
    let found = part_of(plan, position, board);
    put_pair(part, found.start, found.cells)
}

// Where a board's cells of the choice that the position finishes stand in the work area: a slice of two cells gets the first one's place and their number.
#[unsafe(no_mangle)]
pub extern "C" fn campaign_view(
    small: &[u8],
    lengths: &[u32],
    work: &[i64],
    position: u64,
    board: u32,
    part: &mut [u64],
) -> u8
    ensures { (result ≡ part_refusal (plan_from small.now lengths.now) (length work.now) position board (length part.old))
        × (part.new ≡ parting (plan_from small.now lengths.now) (length work.now) position board part.old) }
{
    answer(place(plan_from(small, lengths), work, position, board, part))
}

// The cells of the choice that the position finishes, row-major in axis order, into a result of as many.
#[unsafe(no_mangle)]
pub extern "C" fn campaign_gather(
    small: &[u8],
    lengths: &[u32],
    work: &[i64],
    position: u64,
    res: &mut [i64],
) -> u8
    ensures { (result ≡ gather_refusal (plan_from small.now lengths.now) (length work.now) position (length res.old))
        × (res.new ≡ gathering (plan_from small.now lengths.now) work.now position res.old) }
{
    answer(gather(plan_from(small, lengths), work, position, res))
}
