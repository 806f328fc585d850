// A step that no check refuses, taken on a work area.
#![tactic(auto)]

ghost use Rattle.std.specs.Prelude.{◌≡◌, length};
ghost use Rattle.rack_spec.specs.Answers.{told};
ghost use Rattle.rack_count.specs.Tallied.{Tallied};
ghost use Rattle.run_spec.specs.Entries.{outcome, step_refusal, stepping};

use plan_spec::types::Plan;
use rack_count::counts::Tallies;
use rack_find::steps::step_by;
use rack_spec::types::Step;
use run_expand::expansions::expand_all;
use run_move::move_cells;

// Takes the step at the position on a work area, and moves the position; done at the end. For a call that no check refuses, so that a run is judged once.
pub fn take(
    plan: Plan,
    tallies: Tallies,
    array: &[i32],
    work: &mut [i64],
    position: &mut u64,
) -> Step
    requires { (step_refusal plan (length array.now) (length work.old) position.old ≡ 0) × (Tallied plan tallies) }
    ensures { outcome (told result) work.new position.new ≡ stepping plan array.now work.old position.old }
{
    let at = *position;
    let step = step_by(plan, tallies, at);
    match step {
        Step::Expand(choice) => expand_all(plan, choice, array, work),
        Step::Transfer(t) => move_cells(plan, t, work),
        Step::Finish(_) => {}
        Step::Done => return Step::Done,
    }
    *position = at + 1;
    step
}
