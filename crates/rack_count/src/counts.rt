// How many steps a plan's list has, and a walk over some of its axes.
ghost use Rattle.std.specs.Prelude.{◌≡◌, ℕ, ◌+◌, ◌-◌, ◌*◌, ◌^◌, ◌≤◌, ◌<◌};
ghost use Rattle.cube_spec.specs.Refusals.{reply_of};
ghost use Rattle.plan_spec.specs.Plans.{lists_of, step_count};
ghost use Rattle.plan_spec.specs.Refusals.{plan_refusal};
ghost use Rattle.rack_spec.specs.Counts.{span, sendings, marks, walk_count};
ghost use Rattle.rack_spec.specs.Finding.{plan_grid};
ghost use Rattle.rack_spec.specs.Answers.{counting};
ghost use Rattle.rack_count.specs.Tallied.{Tallied};

use cube_spec::refusals::Refusal;
use plan_check::check_plan;
use plan_spec::types::Plan;

// Of the axes from a place on: the ways to label them, and the transfers of a walk over them.
#[derive(Clone, Copy, Debug, PartialEq, Eq)]
pub struct Tally {
    pub span: u32,
    pub sent: u32,
}

// The tallies at each place up to the number of axes. Narrow, since what a board holds is found by handing them on at every turn.
// Functions take them beside the plan, and ask that they are its own by a clause: the promises name these functions, so a type for both would change what they ask.
#[derive(Clone, Copy, Debug, PartialEq, Eq)]
pub struct Tallies {
    pub places: [Tally; 9],
}

// Into how many portions the axis at place d is cut.
pub fn parts_of(plan: Plan, d: usize) -> u64
    requires { (plan_refusal plan ≡ 0) × (d < plan.axes) }
    ensures { (result ≡ (plan_grid plan).parts d) × (1 ≤ result) × (result ≤ 1024) }
{
    let axis = plan.order[d] as usize;
    1 << plan.exponents[axis]
}

// From the last axis to the first.
pub fn tallies_of(plan: Plan) -> Tallies
    requires { plan_refusal plan ≡ 0 }
    ensures { Tallied plan result }
{
    let mut places = [Tally { span: 1, sent: 0 }; 9];
    for d in (0..plan.axes as usize).rev() {
        let parts = parts_of(plan, d) as u32;
        let next = places[d + 1];
        places[d] = Tally {
            span: parts * next.span,
            sent: next.sent * (parts + 1) + next.span * (parts - 1),
        };
    }
    Tallies { places }
}

// The finishes and the expansions of a walk over m axes.
fn marks_of(m: usize) -> u64
    requires { m ≤ 8 }
    ensures { (result ≡ marks m) × (result ≤ 512) }
{
    if m == 0 {
        return 0;
    }
    ((1 << m) - 1) + ((1 << (m - 1)) - 1)
}

// The steps of a walk over m axes that sends `sent` transfers for each of n labellings. On numbers, since the search for a step asks it in every turn.
pub fn count_with(sent: u32, m: usize, n: u64) -> u64
    requires { (sent ≤ 262144) × (m ≤ 8) × (n ≤ 1024) }
    ensures { (result ≡ sent * n + marks m) × (result < 2 ^ 32) }
{
    u64::from(sent) * n + marks_of(m)
}

// The steps of the walk over the axes from place d on, of a choice whose kept axes before d have n labellings.
pub fn walk_count(plan: Plan, d: usize, n: u64, tallies: Tallies) -> u64
    requires { (plan_refusal plan ≡ 0) × (d ≤ plan.axes) × (n ≤ 1024) × (Tallied plan tallies) }
    ensures { (result ≡ walk_count (plan_grid plan) (plan.axes - d) d n) × (result < 2 ^ 32) }
{
    count_with(tallies.places[d].sent, plan.axes as usize - d, n)
}

// The transfers of the child that sums out the axis at place d.
pub fn transfer_count(plan: Plan, d: usize, n: u64, tallies: Tallies) -> u64
    requires { (plan_refusal plan ≡ 0) × (d < plan.axes) × (n ≤ 1024) × (Tallied plan tallies) }
    ensures { (result ≡ n * span (plan_grid plan) (plan.axes - (d + 1)) (d + 1) * ((plan_grid plan).parts d - 1)) × (result < 2 ^ 32) }
{
    n * u64::from(tallies.places[d + 1].span) * (parts_of(plan, d) - 1)
}

// T, of a plan that no check refuses, by its tallies.
pub fn steps_by(plan: Plan, tallies: Tallies) -> u64
    requires { (plan_refusal plan ≡ 0) × (Tallied plan tallies) }
    ensures { result ≡ step_count (lists_of plan) }
{
    walk_count(plan, 0, 1, tallies) + 1
}

// T, of a plan that no check refuses.
pub fn steps_of(plan: Plan) -> u64
    requires { plan_refusal plan ≡ 0 }
    ensures { result ≡ step_count (lists_of plan) }
{
    steps_by(plan, tallies_of(plan))
}

// The public entry: T, or the plan's refusal.
pub fn step_count(plan: Plan) -> Result<u64, Refusal>
    ensures { reply_of result ≡ counting plan }
{
    check_plan(plan)?;
    Ok(steps_of(plan))
}
