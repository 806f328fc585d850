// The entry that takes one step on a work area.
ghost use Rattle.std.specs.Prelude.{◌≡◌};
ghost use Rattle.rack_spec.specs.Answers.{told_by};
ghost use Rattle.run_spec.specs.Entries.{outcome, stepping};

use cube_spec::refusals::Refusal;
use plan_spec::types::Plan;
use rack_count::counts::tallies_of;
use rack_spec::types::Step;
use run_check::check_step;
use run_take::take;

// The public entry: takes the step at the position and moves the position; done at the end, or the refusal, and then nothing is changed.
pub fn step(
    plan: Plan,
    array: &[i32],
    work: &mut [i64],
    position: &mut u64,
) -> Result<Step, Refusal>
    ensures { outcome (told_by result) work.new position.new ≡ stepping plan array.now work.old position.old }
{
    check_step(plan, array.len(), work.len(), *position)?;
    Ok(take(plan, tallies_of(plan), array, work, position))
}
