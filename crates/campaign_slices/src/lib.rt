// Plans, steps and numbers in slices that a caller in C lends. A plan comes in two: the axes, p, the order's slots and the exponents' in one,
// the lengths' slots in the other.
#![tactic(auto)]

ghost use Rattle.std.specs.Prelude.{◌≡◌, [], ◌∷◌, ◌+◌, ◌≤◌, length, map};
ghost use Rattle.std.proofs.lemmas.List.Edits.{sets};
ghost use Rattle.cube_spec.specs.Refusals.{refused_by};
ghost use Rattle.rack_spec.specs.Answers.{told};
ghost use Rattle.campaign_slices.specs.Lent.{lent_refusal, written_or};
ghost use Rattle.campaign_slices.specs.Scans.{cells, cells_of};
ghost use Rattle.campaign_slices.specs.Racks.{no_plan, plan_from, bytes_of, cells_told, cells_priced, mark_cell};
ghost use Rattle.campaign_slices.specs.Links.{search_cells, cells_searched};

use cube_spec::refusals::Refusal;
use link_spec::types::Searched;
use plan_spec::types::{Marked, Plan, Prices};
use rack_spec::types::Step;
use tape_spec::types::Scan;

// The cells of a scan.
pub const SCAN_CELLS: usize = 12;

// The cells of what a search found.
pub const SEARCH_CELLS: usize = 11;

// Puts what a scan tells in its cells.
pub fn put_scan(out: &mut [u64], found: Scan)
    requires { length out.old ≡ cells }
    ensures { out.new ≡ cells_of found }
{
    out[0] = u64::from(found.axes);
    out[1] = u64::from(found.p);
    out[2] = found.points;
    out[3] = found.commands;
    out[4..SCAN_CELLS].copy_from_slice(&found.lengths.map(u64::from));
}

// Eight numbers as an array.
fn eight<T: Copy>(numbers: &[T]) -> [T; 8]
    requires { length numbers.now ≡ 8 }
    ensures { result ≡ numbers.now }
{
    *numbers.as_array().unwrap()
}

// A plan of no axes.
fn no_plan() -> Plan
    ensures { result ≡ no_plan }
{
    Plan {
        axes: 0,
        p: 0,
        lengths: [0; 8],
        order: [0; 8],
        exponents: [0; 8],
    }
}

// The plan that two slices hold.
pub fn plan_from(small: &[u8], lengths: &[u32]) -> Plan
    ensures { result ≡ plan_from small.now lengths.now }
{
    if small.len() != 18 || lengths.len() != 8 {
        return no_plan();
    }
    Plan {
        axes: small[0],
        p: small[1],
        lengths: eight(lengths),
        order: eight(&small[2..10]),
        exponents: eight(&small[10..18]),
    }
}

// Puts cells in a lent slice of as many.
fn put(out: &mut [u64], cells: &[u64]) -> Result<(), Refusal>
    ensures { (refused_by result ≡ lent_refusal [] (length cells.now) (length out.old))
        × (out.new ≡ written_or (refused_by result) cells.now out.old) }
{
    if out.len() != cells.len() {
        return Err(Refusal::Result);
    }
    out.copy_from_slice(cells);
    Ok(())
}

// A step in five cells.
fn cells_of(step: Step) -> [u64; 5]
    ensures { result ≡ cells_told (told step) }
{
    match step {
        Step::Expand(choice) => [1, 0, 0, u64::from(choice.mask), 0],
        Step::Transfer(t) => [
            2,
            u64::from(t.sender),
            u64::from(t.receiver),
            u64::from(t.choice.mask),
            t.values,
        ],
        Step::Finish(choice) => [3, 0, 0, u64::from(choice.mask), 0],
        Step::Done => [4, 0, 0, 0, 0],
    }
}

// Puts a step in a slice of five cells.
pub fn put_step(out: &mut [u64], step: Step) -> Result<(), Refusal>
    ensures { (refused_by result ≡ lent_refusal [] 5 (length out.old))
        × (out.new ≡ written_or (refused_by result) (cells_told (told step)) out.old) }
{
    put(out, &cells_of(step))
}

// Puts a number in a slice of one cell.
pub fn put_number(out: &mut [u64], n: u64) -> Result<(), Refusal>
    ensures { (refused_by result ≡ lent_refusal [] 1 (length out.old))
        × (out.new ≡ written_or (refused_by result) (n ∷ []) out.old) }
{
    put(out, &[n])
}

// Puts a plan in two slices, as `plan_from` takes it.
pub fn put_plan(small: &mut [u8], lengths: &mut [u32], plan: Plan)
    requires { (length small.old ≡ 18) × (length lengths.old ≡ 8) }
    ensures { (small.new ≡ bytes_of plan) × (lengths.new ≡ plan.lengths) }
{
    small[0] = plan.axes;
    small[1] = plan.p;
    small[2..10].copy_from_slice(&plan.order);
    small[10..18].copy_from_slice(&plan.exponents);
    lengths.copy_from_slice(&plan.lengths);
}

// Puts prices, and a number beside them, in a slice of four cells.
pub fn put_prices(out: &mut [u64], prices: Prices, beside: u64) -> Result<(), Refusal>
    ensures { (refused_by result ≡ lent_refusal [] 4 (length out.old))
        × (out.new ≡ written_or (refused_by result) (cells_priced prices beside) out.old) }
{
    put(out, &[prices.moved, prices.added, prices.share, beside])
}

// Puts prices and their mark in a slice of four cells: 1 for yes, 0 for no.
pub fn put_marked(out: &mut [u64], marked: Marked) -> Result<(), Refusal>
    ensures { (refused_by result ≡ lent_refusal [] 4 (length out.old))
        × (out.new ≡ written_or (refused_by result) (cells_priced marked.prices (mark_cell marked.fewest)) out.old) }
{
    put_prices(out, marked.prices, u64::from(marked.fewest))
}

// Puts two numbers in a slice of two cells.
pub fn put_pair(out: &mut [u64], a: u64, b: u64) -> Result<(), Refusal>
    ensures { (refused_by result ≡ lent_refusal [] 2 (length out.old))
        × (out.new ≡ written_or (refused_by result) (a ∷ b ∷ []) out.old) }
{
    put(out, &[a, b])
}

// Puts what a search found in a slice of eleven cells.
pub fn put_searched(out: &mut [u64], found: Searched) -> Result<(), Refusal>
    ensures { (refused_by result ≡ lent_refusal [] search_cells (length out.old))
        × (out.new ≡ written_or (refused_by result) (cells_searched found) out.old) }
{
    let mut cells = [0; SEARCH_CELLS];
    cells[0] = found.cost;
    cells[1] = found.distance;
    cells[2] = found.priced;
    cells[3..SEARCH_CELLS].copy_from_slice(&found.exponents.map(u64::from));
    put(out, &cells)
}
