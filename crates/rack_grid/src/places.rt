// Boards by their labels: portions, extents, leads and cells. Axes go by their place in the plan.
ghost use Rattle.std.specs.Prelude.{◌≡◌, suc, ◌-◌, ◌*◌, ◌^◌, ◌≤◌, ◌<◌, ◌||◌, not, eqb, get_or};
ghost use Rattle.cube_spec.specs.Limits.{length_limit, point_limit, padded};
ghost use Rattle.cube_spec.specs.Boxes.{table, product};
ghost use Rattle.cube_spec.specs.Tree.{has, kept, next};
ghost use Rattle.plan_spec.specs.Refusals.{plan_refusal};
ghost use Rattle.rack_spec.specs.Grids.{boards, board_with, label, lead, box, cells, share, index};
ghost use Rattle.rack_spec.specs.Finding.{plan_grid, summed_in, leads, lead_label, Labels};

use cube_choice::types::Choice;
use plan_portion::{kept_portion, portion_of};
use plan_region::region_of;
use plan_spec::types::Plan;
use rack_count::counts::parts_of;

// How many positions portion l of the axis at place d has.
pub fn extent_of(plan: Plan, d: usize, l: u64) -> u64
    requires { (plan_refusal plan ≡ 0) × (d < plan.axes) × (l < (plan_grid plan).parts d) }
    ensures { (result ≡ (plan_grid plan).start d (suc l) - (plan_grid plan).start d l) × (result ≤ length_limit) }
{
    let axis = plan.order[d] as usize;
    portion_of(plan.lengths[axis], plan.exponents[axis], l)
}

// The labels, by place, of the lead that has a rank among the leads of a choice. In eight slots, since nothing is allocated.
pub fn lead_labels(plan: Plan, choice: Choice, rank: u64) -> [u64; 8]
    requires { (plan_refusal plan ≡ 0) × (rank < leads (plan_grid plan) (summed_in plan choice.mask)) }
    ensures { result ≡ padded (table plan.axes (lead_label (plan_grid plan) (summed_in plan choice.mask) rank)) }
{
    let mut labels = [0; 8];
    let mut rest = rank;
    for d in (0..plan.axes as usize).rev() {
        let axis = plan.order[d];
        if choice.keeps(axis) {
            let parts = 1 << plan.exponents[axis as usize];
            labels[d] = rest % parts;
            rest /= parts;
        }
    }
    labels
}

// Into how many portions the axis at place d is cut, and 1 where a choice sums it out.
fn kept_parts(plan: Plan, choice: Choice, d: usize) -> u64
    requires { (plan_refusal plan ≡ 0) × (d < plan.axes) }
    ensures { (result ≡ kept (summed_in plan choice.mask) (plan_grid plan).parts d) × (result ≤ 1024) }
{
    if choice.keeps(plan.order[d]) {
        parts_of(plan, d)
    } else {
        1
    }
}

// How many leads a choice has.
pub fn leads_of(plan: Plan, choice: Choice) -> u64
    requires { plan_refusal plan ≡ 0 }
    ensures { (result ≡ leads (plan_grid plan) (summed_in plan choice.mask)) × (result ≤ 1024) }
{
    let mut count = 1;
    for d in 0..plan.axes as usize {
        count *= kept_parts(plan, choice, d);
    }
    count
}

// The labels of a board: it is a lead of the choice that keeps every axis, and its number is its rank.
pub fn labels_of(plan: Plan, board: u64) -> [u64; 8]
    requires { (plan_refusal plan ≡ 0) × (board < boards (plan_grid plan)) }
    ensures { result ≡ padded (table plan.axes (label (plan_grid plan) board)) }
{
    lead_labels(plan, Choice::full(plan.axes), board)
}

// And back: the board that has these labels.
pub fn board_of(plan: Plan, labels: [u64; 8]) -> u64
    requires { (plan_refusal plan ≡ 0) × (Labels plan labels) }
    ensures { (result ≡ board_with (plan_grid plan) (λ d. get_or labels d 0)) × (result < 1024) }
{
    let mut board = 0;
    for d in 0..plan.axes as usize {
        let axis = plan.order[d] as usize;
        let parts = 1 << plan.exponents[axis];
        board = board * parts + labels[d];
    }
    board
}

// May a lead of a choice have label l on the axis at place d?
fn lead_may(plan: Plan, choice: Choice, d: usize, l: u64) -> bool
    requires { (plan_refusal plan ≡ 0) × (d < plan.axes) }
    ensures { result ≡ (eqb l 0 || not (has (summed_in plan choice.mask) d)) }
{
    l == 0 || choice.keeps(plan.order[d])
}

// Has a board label 0 on every axis that a choice sums out? The last axis first, up to the first label that says no.
pub fn is_lead(plan: Plan, choice: Choice, board: u64) -> bool
    requires { (plan_refusal plan ≡ 0) × (board < boards (plan_grid plan)) }
    ensures { result ≡ lead (plan_grid plan) (summed_in plan choice.mask) board }
{
    let mut rest = board;
    for d in (0..plan.axes as usize).rev() {
        let parts = parts_of(plan, d);
        if !lead_may(plan, choice, d, rest % parts) {
            return false;
        }
        rest /= parts;
    }
    true
}

// How many cells of a choice the axes from place `first` up to place `end` make on the board with these labels.
pub fn cells_between(plan: Plan, choice: Choice, labels: [u64; 8], first: usize, end: usize) -> u64
    requires { (plan_refusal plan ≡ 0) × (Labels plan labels) × (first ≤ end) × (end ≤ plan.axes) }
    ensures { (result ≡ product (box (plan_grid plan) (summed_in plan choice.mask) (board_with (plan_grid plan) (λ d. get_or labels d 0))) (end - first) first) × (result ≤ point_limit) }
{
    let mut count = 1;
    for d in first..end {
        let axis = plan.order[d];
        let i = axis as usize;
        count *= kept_portion(
            choice.keeps(axis),
            plan.lengths[i],
            plan.exponents[i],
            labels[d],
        );
    }
    count
}

// And all of them.
pub fn cells_with(plan: Plan, choice: Choice, labels: [u64; 8]) -> u64
    requires { (plan_refusal plan ≡ 0) × (Labels plan labels) }
    ensures { (result ≡ cells (plan_grid plan) (summed_in plan choice.mask) (board_with (plan_grid plan) (λ d. get_or labels d 0))) × (result ≤ point_limit) }
{
    cells_between(plan, choice, labels, 0, plan.axes as usize)
}

// How many cells of a choice a board has.
pub fn cells_of(plan: Plan, choice: Choice, board: u64) -> u64
    requires { (plan_refusal plan ≡ 0) × (board < boards (plan_grid plan)) }
    ensures { (result ≡ cells (plan_grid plan) (summed_in plan choice.mask) board) × (result ≤ point_limit) }
{
    cells_with(plan, choice, labels_of(plan, board))
}

// The first place that is later than every axis that a choice sums out.
pub fn next_of(plan: Plan, choice: Choice) -> usize
    requires { plan_refusal plan ≡ 0 }
    ensures { (result ≡ next (summed_in plan choice.mask)) × (result ≤ plan.axes) }
{
    for d in (0..plan.axes as usize).rev() {
        if !choice.keeps(plan.order[d]) {
            return d + 1;
        }
    }
    0
}

// A, the cells of a board's share.
pub fn share_of(plan: Plan) -> u64
    requires { plan_refusal plan ≡ 0 }
    ensures { (result ≡ share (plan_grid plan)) × (result ≤ point_limit * plan.axes) }
{
    region_of(plan, 0).share
}

// Where region i of a board's share starts in the work area.
pub fn region_at(plan: Plan, board: u64, i: usize) -> u64
    requires { (plan_refusal plan ≡ 0) × (board < 1024) × (i ≤ plan.axes) }
    ensures { (result ≡ index (plan_grid plan) board i 0) × (result < 2 ^ 38) }
{
    let regions = region_of(plan, i);
    board * regions.share + regions.start
}
