// The step at a position of a plan's list, found without listing.
ghost use Rattle.std.specs.Prelude.{◌≡◌};
ghost use Rattle.plan_spec.specs.Refusals.{plan_refusal};
ghost use Rattle.rack_spec.specs.Steps.{steps};
ghost use Rattle.rack_spec.specs.Finding.{plan_grid, summed_in, found, Sending};
ghost use Rattle.rack_spec.specs.Answers.{told, telling, told_at, told_of};
ghost use Rattle.rack_count.specs.Tallied.{Tallied};
ghost use Rattle.rack_find.specs.Searching.{Searching, found_told, Sendable, FoundInWalk, FoundInVisit};

use cube_choice::types::Choice;
use plan_spec::types::Plan;
use rack_count::counts::{Tallies, count_with, parts_of, tallies_of};
use rack_grid::places::{board_of, cells_with, lead_labels};
use rack_spec::types::{Step, Transfer};

// What the search for a step finds: a transfer by its choice, the place of the axis just summed, and its number among the choice's transfers. Its boards are
// worked out once it is found.
#[derive(Clone, Copy)]
enum Found {
    Expand(Choice),
    Send(Choice, usize, u64),
    Finish(Choice),
    Done,
}

// A place of the search: a choice that keeps all axes from place d on, which have `rest` labellings, and those before d that it keeps have n.
#[derive(Clone, Copy)]
struct Place {
    choice: Choice,
    d: usize,
    n: u64,
    rest: u64,
}

// The transfer at a position among those of a choice whose last summed axis is at place d.
fn sending(plan: Plan, choice: Choice, d: usize, at: u64) -> Transfer
    requires { Sending plan choice.mask d at }
    ensures { told_of result ≡ telling (plan_grid plan) (found (plan_grid plan) (summed_in plan choice.mask) at) }
{
    let others = parts_of(plan, d) - 1;
    let mut labels = lead_labels(plan, choice, at / others);
    let receiver = board_of(plan, labels);
    labels[d] = at % others + 1;
    let sender = board_of(plan, labels);
    Transfer {
        sender: sender as u32,
        receiver: receiver as u32,
        choice,
        values: cells_with(plan, choice, labels),
    }
}

// The step at a position of the walk over the children of a choice from a place on, taken from right to left: the later children by the walk over the axes after it,
// then the transfers of the child that sums out the axis there, then its visit.
#[cycle(visit_walk)]
fn walk(plan: &Plan, tallies: &Tallies, place: Place, at: u64) -> Found
    requires { Searching plan.now tallies.now place.choice.mask place.d place.n place.rest }
    ensures { FoundInWalk plan.now place.choice.mask place.d at result }
{
    let axes = plan.axes as usize;
    let Place { choice, d, n, rest } = place;
    if d == axes {
        return Found::Done;
    }
    let axis = plan.order[d];
    let k = plan.exponents[axis as usize];
    let next = Place {
        choice,
        d: d + 1,
        n: n << k,
        rest: rest >> k,
    };
    let later = count_with(tallies.places[next.d].sent, axes - next.d, next.n);
    if at < later {
        return walk(plan, tallies, next, at);
    }
    let child = choice.without(axis);
    let sends = (next.n - n) * next.rest;
    if at - later < sends {
        return Found::Send(child, d, at - later);
    }
    let below = Place {
        choice: child,
        n,
        ..next
    };
    visit(plan, tallies, below, at - later - sends)
}

// The step at a position of the visit of a choice whose children begin at a place: it is expanded if it has any, and finished after them.
#[cycle(visit_walk)]
fn visit(plan: &Plan, tallies: &Tallies, place: Place, at: u64) -> Found
    requires { Searching plan.now tallies.now place.choice.mask place.d place.n place.rest }
    ensures { FoundInVisit plan.now place.choice.mask place.d at result }
{
    let axes = plan.axes as usize;
    let Place { choice, d, n, .. } = place;
    if d == axes {
        return if at == 0 {
            Found::Finish(choice)
        } else {
            Found::Done
        };
    }
    if at == 0 {
        return Found::Expand(choice);
    }
    let below = count_with(tallies.places[d].sent, axes - d, n);
    if at - 1 < below {
        return walk(plan, tallies, place, at - 1);
    }
    if at - 1 == below {
        return Found::Finish(choice);
    }
    Found::Done
}

// The step that is found, with the boards and the values of a transfer.
fn step_of(plan: Plan, found: Found) -> Step
    requires { Sendable plan found }
    ensures { told result ≡ found_told plan found }
{
    match found {
        Found::Expand(c) => Step::Expand(c),
        Found::Send(c, d, i) => Step::Transfer(sending(plan, c, d, i)),
        Found::Finish(c) => Step::Finish(c),
        Found::Done => Step::Done,
    }
}

// The step at a position of the whole list, done at its end and past it, by tallies that can serve many positions.
pub fn step_by(plan: Plan, tallies: Tallies, at: u64) -> Step
    requires { (plan_refusal plan ≡ 0) × (Tallied plan tallies) }
    ensures { told result ≡ told_at (plan_grid plan) (steps (plan_grid plan)) at }
{
    let root = Choice::full(plan.axes);
    if at == 0 {
        return Step::Expand(root);
    }
    let place = Place {
        choice: root,
        d: 0,
        n: 1,
        rest: u64::from(tallies.places[0].span),
    };
    step_of(plan, walk(&plan, &tallies, place, at - 1))
}

// The step at one position.
pub fn step_at(plan: Plan, at: u64) -> Step
    requires { plan_refusal plan ≡ 0 }
    ensures { told result ≡ told_at (plan_grid plan) (steps (plan_grid plan)) at }
{
    step_by(plan, tallies_of(plan), at)
}
