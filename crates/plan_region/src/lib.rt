// The regions of a share.
#![tactic(auto)]

ghost use Rattle.std.specs.Prelude.{◌≡◌, ◌+◌, ◌*◌, ◌^◌, ◌≤◌, ◌<◌, length};
ghost use Rattle.cube_spec.specs.Limits.{power_limit, point_limit};
ghost use Rattle.cube_spec.specs.Boxes.{pick};
ghost use Rattle.cube_spec.specs.Portions.{ceiling};
ghost use Rattle.cube_spec.specs.Tree.{region_start};
ghost use Rattle.plan_spec.specs.Plans.{most_at, lists_of};
ghost use Rattle.plan_spec.specs.Refusals.{plan_refusal};
ghost use Rattle.plan_spec.specs.Pricing.{most_of, Priceable};

use plan_order::in_order;
use plan_spec::types::Plan;

// Where a region of a share starts, and how many cells the share has.
#[derive(Clone, Copy)]
pub struct Region {
    pub start: u64,
    pub share: u64,
}

// ceil(length / 2^k), the most positions that a portion has.
fn most_of(length: u32, k: u8) -> u64
    requires { k ≤ power_limit }
    ensures { (result ≡ ceiling length (2 ^ k)) × (result < 2 ^ 33) }
{
    u64::from(length).div_ceil(1u64 << k)
}

// The sum so far, with one axis more in each product, and the product that leaves it out if its region is counted.
fn with_axis(sum: u64, most: u64, all: u64, counted: bool) -> u64
    requires { sum * most + all < 2 ^ 64 }
    ensures { result ≡ pick counted (sum * most + all) (sum * most) }
{
    if counted {
        return sum * most + all;
    }
    sum * most
}

// The regions before region i, and all of them, which are A: region r is the product of the most positions on each other axis.
pub fn regions_to(lengths: &[u32], exponents: &[u8], i: usize) -> Region
    requires each { length exponents.now ≡ length lengths.now }
    requires axes { Priceable lengths.now exponents.now (length lengths.now) }
    requires region { i ≤ length lengths.now }
    ensures { (result.start ≡ region_start (length lengths.now) (most_of lengths.now exponents.now) i) × (result.share ≡ region_start (length lengths.now) (most_of lengths.now exponents.now) (length lengths.now)) × (result.start ≤ point_limit * i) × (result.share ≤ point_limit * length lengths.now) }
{
    let mut start: u64 = 0;
    let mut share: u64 = 0;
    let mut all: u64 = 1;
    for (d, &length) in lengths.iter().enumerate() {
        let most = most_of(length, exponents[d]);
        start = with_axis(start, most, all, d < i);
        share = with_axis(share, most, all, true);
        all *= most;
    }
    Region { start, share }
}

// Where region i of a share starts, and A.
pub fn region_of(plan: Plan, i: usize) -> Region
    requires { (plan_refusal plan ≡ 0) × (i ≤ plan.axes) }
    ensures { (result.start ≡ region_start plan.axes (most_at (lists_of plan)) i) × (result.share ≡ region_start plan.axes (most_at (lists_of plan)) plan.axes) × (result.start ≤ point_limit * i) × (result.share ≤ point_limit * plan.axes) }
{
    let n = plan.axes as usize;
    let order = &plan.order[..n];
    let lengths = in_order(&plan.lengths, order, 0);
    let exponents = in_order(&plan.exponents, order, 0);
    regions_to(&lengths[..n], &exponents[..n], i)
}
