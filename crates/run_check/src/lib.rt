// The refusals of the entries that take memory, each the first line of its list that is due.
#![tactic(auto)]

ghost use Rattle.std.specs.Prelude.{◌≡◌, ◌^◌, ◌<◌};
ghost use Rattle.cube_spec.specs.Choices.{points};
ghost use Rattle.cube_spec.specs.Refusals.{refused_by};
ghost use Rattle.plan_spec.specs.Plans.{lists_of};
ghost use Rattle.plan_spec.specs.Refusals.{plan_refusal};
ghost use Rattle.run_spec.specs.Entries.{work_cells, step_refusal};

use cube_choice::types::Choice;
use cube_spec::refusals::Refusal;
use plan_check::check_plan;
use plan_spec::types::Plan;
use rack_count::counts::steps_of;
use rack_grid::places::share_of;

// How many points a plan's array has.
pub fn points_of(plan: Plan) -> u64
    requires { plan_refusal plan ≡ 0 }
    ensures { result ≡ points (lists_of plan).lengths }
{
    Choice::full(plan.axes).cells(&plan.lengths[..plan.axes as usize])
}

// How many cells the work area needs: 2^p shares.
pub fn area_of(plan: Plan) -> u64
    requires { plan_refusal plan ≡ 0 }
    ensures { (result ≡ work_cells (lists_of plan)) × (result < 2 ^ 38) }
{
    (1 << plan.p) * share_of(plan)
}

// 3 to 6, 8, 9, 10, 11, 12: over as many points, cells and steps taken.
pub fn check_step(plan: Plan, array: usize, work: usize, at: u64) -> Result<(), Refusal>
    ensures { refused_by result ≡ step_refusal plan array work at }
{
    check_plan(plan)?;
    if points_of(plan) != array as u64 {
        return Err(Refusal::Array);
    }
    if (work as u64) < area_of(plan) {
        return Err(Refusal::Memory);
    }
    if steps_of(plan) < at {
        return Err(Refusal::Position);
    }
    Ok(())
}
