// The step before a position, and whether it is a finish.
#![tactic(auto)]

ghost use Rattle.std.specs.Prelude.{◌≡◌, not};
ghost use Rattle.plan_spec.specs.Refusals.{plan_refusal};
ghost use Rattle.rack_spec.specs.Finding.{plan_grid};
ghost use Rattle.rack_spec.specs.Answers.{told};
ghost use Rattle.rack_spec.specs.Held.{finished_at};
ghost use Rattle.run_spec.specs.Entries.{is_none};
ghost use Rattle.run_spec.specs.Taking.{told_before};

use plan_spec::types::Plan;
use rack_find::steps::step_at;
use rack_spec::types::Step;

// The step that leads to a position, done where there is none.
pub fn step_before(plan: Plan, at: u64) -> Step
    requires { plan_refusal plan ≡ 0 }
    ensures { told result ≡ told_before (plan_grid plan) at }
{
    if at == 0 {
        return Step::Done;
    }
    step_at(plan, at - 1)
}

// Does the position follow a finish?
pub fn is_finished(plan: Plan, at: u64) -> bool
    requires { plan_refusal plan ≡ 0 }
    ensures { result ≡ not (is_none (finished_at (plan_grid plan) at)) }
{
    matches!(step_before(plan, at), Step::Finish(_))
}
