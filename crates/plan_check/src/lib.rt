#![tactic(auto)]

ghost use Rattle.std.specs.Prelude.{◌≡◌, false, ◌||◌, [], ◌∷◌, ◌^◌, ◌≤◌, ◌<◌, leb, get_or, length, take};
ghost use Rattle.cube_spec.specs.Limits.{axis_limit};
ghost use Rattle.cube_spec.specs.Choices.{length_of};
ghost use Rattle.cube_spec.specs.Ways.{sum_list, log2, room};
ghost use Rattle.cube_spec.specs.Checks.{check, first};
ghost use Rattle.cube_spec.specs.Refusals.{refused_by};
ghost use Rattle.plan_spec.specs.Plans.{count, lists_of};
ghost use Rattle.plan_spec.specs.Refusals.{all, some, bad_length, too_many_points, names_each, slots_used, bad_order, bad_exponents, plan_refusal};

use cube_spec::refusals::Refusal;
use plan_spec::types::Plan;

// Is a length 0 or over 65,535?
#[tactic(auto, unfolding(plan_spec::specs::Refusals::bad_length))]
fn bad_length(length: u32) -> bool
    ensures { result ≡ bad_length length }
{
    length == 0 || 65535 < length
}

// 4.
fn bad_lengths(lengths: &[u32]) -> bool
    ensures { result ≡ some bad_length lengths.now }
{
    lengths.iter().any(|&length| bad_length(length))
}

// 5: does the product of lengths that are not bad exceed 16,777,216? It stops as soon as it does: eight lengths can multiply to 2^64.
fn too_many_points(lengths: &[u32]) -> bool
    requires { some bad_length lengths.now ≡ false }
    ensures { result ≡ too_many_points lengths.now }
{
    let mut points: u64 = 1;
    for &length in lengths {
        points *= u64::from(length);
        if 16777216 < points {
            return true;
        }
    }
    false
}

// 4 and 5, 4 on all lengths before 5.
pub fn check_lengths(lengths: &[u32]) -> Result<(), Refusal>
    ensures { refused_by result ≡ first (check 4 (some bad_length lengths.now) ∷ check 5 (too_many_points lengths.now) ∷ []) }
{
    if bad_lengths(lengths) {
        return Err(Refusal::Length);
    }
    if too_many_points(lengths) {
        return Err(Refusal::Points);
    }
    Ok(())
}

// floor(log2 d), and 0 for 0.
pub fn log2_of(d: u32) -> u32
    ensures { (result ≡ log2 d) × (result < 32) }
{
    d.checked_ilog2().unwrap_or(0)
}

// The largest p that lengths have room for.
pub fn room_of(lengths: &[u32]) -> u32
    requires { length lengths.now ≤ axis_limit }
    ensures { result ≡ room lengths.now }
{
    lengths.iter().map(|&length| log2_of(length)).sum()
}

// How often the order names an axis.
fn count_of(order: &[u8], axis: u8) -> usize
    ensures { result ≡ count axis order.now }
{
    order.iter().filter(|&&named| named == axis).count()
}

// Does the order name each axis once?
fn names_each(order: &[u8]) -> bool
    requires { length order.now ≤ axis_limit }
    ensures { result ≡ names_each (length order.now) order.now }
{
    (0..order.len() as u8).all(|axis| count_of(order, axis) == 1)
}

// Is a slot past the last axis not zero?
fn slots_used(plan: Plan) -> bool
    requires { plan.axes ≤ axis_limit }
    ensures { result ≡ slots_used plan.axes plan.lengths || (slots_used plan.axes plan.order || slots_used plan.axes plan.exponents) }
{
    for slot in plan.axes as usize..8 {
        if plan.lengths[slot] != 0 || plan.order[slot] != 0 || plan.exponents[slot] != 0 {
            return true;
        }
    }
    false
}

// 8.
fn bad_order(plan: Plan) -> bool
    requires { plan.axes ≤ axis_limit }
    ensures { result ≡ bad_order plan }
{
    !names_each(&plan.order[..plan.axes as usize]) || slots_used(plan)
}

// Is 2^k at most a length? An exponent can be 255, so it is judged before it shifts.
fn cuts(length: u32, k: u8) -> bool
    ensures { result ≡ leb (2 ^ k) length }
{
    k < 32 && (1u64 << k) <= u64::from(length)
}

// Is each 2^k at most its axis length?
fn cuts_each(lengths: &[u32], exponents: &[u8]) -> bool
    requires { length lengths.now ≡ length exponents.now }
    ensures { result ≡ all (length lengths.now) (λ d. leb (2 ^ get_or exponents.now d 0) (length_of lengths.now d)) }
{
    lengths
        .iter()
        .zip(exponents)
        .all(|(&length, &k)| cuts(length, k))
}

// The sum of the exponents, in 32 bits: two of 255 do not fit 8.
fn exponent_sum(exponents: &[u8]) -> u32
    requires { length exponents.now ≤ axis_limit }
    ensures { result ≡ sum_list exponents.now }
{
    exponents.iter().map(|&k| u32::from(k)).sum()
}

// 9.
fn bad_exponents(plan: Plan) -> bool
    requires { plan.axes ≤ axis_limit }
    ensures { result ≡ bad_exponents (lists_of plan) }
{
    let n = plan.axes as usize;
    let exponents = &plan.exponents[..n];
    !cuts_each(&plan.lengths[..n], exponents) || exponent_sum(exponents) != u32::from(plan.p)
}

// What is wrong with a lent plan: 3, 4, 5, 6, 8, 9.
pub fn check_plan(plan: Plan) -> Result<(), Refusal>
    ensures { refused_by result ≡ plan_refusal plan }
{
    if plan.axes == 0 || 8 < plan.axes {
        return Err(Refusal::Axes);
    }
    check_lengths(&plan.lengths[..plan.axes as usize])?;
    if 10 < plan.p {
        return Err(Refusal::Boards);
    }
    if bad_order(plan) {
        return Err(Refusal::Order);
    }
    if bad_exponents(plan) {
        return Err(Refusal::Exponents);
    }
    Ok(())
}
