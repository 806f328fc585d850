// The entry that copies a finished choice into a lent slice.
ghost use Rattle.std.specs.Prelude.{◌≡◌, length, IfOk};
ghost use Rattle.std.proofs.Math.Option.{some};
ghost use Rattle.cube_spec.specs.Refusals.{refused_by};
ghost use Rattle.rack_spec.specs.Held.{finished_at};
ghost use Rattle.rack_spec.specs.Finding.{plan_grid, summed_in};
ghost use Rattle.run_spec.specs.Entries.{gather_refusal, gathering};

use cube_choice::types::Choice;
use cube_spec::refusals::Refusal;
use plan_check::check_plan;
use plan_spec::types::Plan;
use rack_count::counts::steps_of;
use rack_spec::types::Step;
use run_check::area_of;
use run_copy::copy_all;
use run_finish::step_before;

// 3 to 6, 8, 9, 11, 12, 13; or the choice that the position finishes.
pub fn check_gather(plan: Plan, work: u64, position: u64, res: u64) -> Result<Choice, Refusal>
    ensures refusal { refused_by result ≡ gather_refusal plan work position res }
    ensures choice { IfOk result (λ c. finished_at (plan_grid plan) position ≡ some (summed_in plan c.mask)) }
{
    check_plan(plan)?;
    if work < area_of(plan) {
        return Err(Refusal::Memory);
    }
    if steps_of(plan) < position {
        return Err(Refusal::Position);
    }
    let Step::Finish(choice) = step_before(plan, position) else {
        return Err(Refusal::Position);
    };
    if res != choice.cells(&plan.lengths[..plan.axes as usize]) {
        return Err(Refusal::Result);
    }
    Ok(choice)
}

// The cells of the choice that the position finishes, row-major in axis order, into the result; a refusal leaves the result as it was.
pub fn gather(plan: Plan, work: &[i64], position: u64, res: &mut [i64]) -> Result<(), Refusal>
    ensures { (refused_by result ≡ gather_refusal plan (length work.now) position (length res.old)) × (res.new ≡ gathering plan work.now position res.old) }
{
    let choice = check_gather(plan, work.len() as u64, position, res.len() as u64)?;
    copy_all(plan, choice, work, res);
    Ok(())
}
