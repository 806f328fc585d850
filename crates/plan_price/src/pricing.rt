ghost use Rattle.std.specs.Prelude.{◌≡◌, ◌-◌, ◌^◌, ◌≤◌, ◌<◌, length};
ghost use Rattle.cube_spec.specs.Limits.{power_limit};
ghost use Rattle.cube_spec.specs.Choices.{length_of};
ghost use Rattle.cube_spec.specs.Tree.{sent};
ghost use Rattle.cube_spec.specs.Refusals.{reply_of};
ghost use Rattle.plan_spec.specs.Plans.{lists_of};
ghost use Rattle.plan_spec.specs.Refusals.{plan_refusal};
ghost use Rattle.plan_spec.specs.Answers.{prices_of, never_rise, fewest_added, pricing};
ghost use Rattle.plan_spec.specs.Pricing.{moved_from, added_from, Undecided};

use cube_spec::refusals::Refusal;
use plan_check::check_plan;
use plan_order::in_order;
use plan_region::regions_to;
use plan_spec::types::{Marked, Plan, Prices};

// What choices move and add up.
#[derive(Clone, Copy)]
pub struct Sums {
    pub moved: u64,
    pub added: u64,
}

// What one cell of a choice moves, if its last summed axis has exponent k: 2^k - 1.
fn sent_of(k: u8) -> u64
    requires { k ≤ power_limit }
    ensures { (result ≡ sent k) × (result < 1024) }
{
    (1u64 << k) - 1
}

// Over every choice that the axes from i on may still give: k is the exponent of the last axis summed so far, 0 while there is none,
// `cells` are those of the choice so far, and `parent` those of its parent, 0 while nothing is summed.
fn choices_from(lengths: &[u32], exponents: &[u8], i: usize, k: u8, cells: u64, parent: u64) -> Sums
    requires each { length exponents.now ≡ length lengths.now }
    requires undecided { Undecided lengths.now exponents.now (length lengths.now) i k cells parent }
    ensures { (result.moved ≡ moved_from lengths.now exponents.now (length lengths.now - i) i k cells) × (result.added ≡ added_from lengths.now (length lengths.now - i) i cells parent) × (result.moved ≤ 2 ^ 42) × (result.added ≤ 2 ^ 42) }
{
    if i == lengths.len() {
        let sent = sent_of(k);
        return Sums {
            moved: cells * sent,
            added: parent,
        };
    }
    let length = u64::from(lengths[i]);
    let last = exponents[i];
    let more = cells * length;
    let kept = choices_from(lengths, exponents, i + 1, k, more, parent * length);
    let summed = choices_from(lengths, exponents, i + 1, last, cells, more);
    Sums {
        moved: kept.moved + summed.moved,
        added: kept.added + summed.added,
    }
}

// The prices of a plan that no check refuses.
pub fn prices(plan: Plan) -> Prices
    requires { plan_refusal plan ≡ 0 }
    ensures { result ≡ prices_of (lists_of plan) }
{
    let n = plan.axes as usize;
    let order = &plan.order[..n];
    let lengths = in_order(&plan.lengths, order, 0);
    let exponents = in_order(&plan.exponents, order, 0);
    let sums = choices_from(&lengths[..n], &exponents[..n], 0, 0, 1, 0);
    let regions = regions_to(&lengths[..n], &exponents[..n], n);
    Prices {
        moved: sums.moved,
        added: sums.added,
        share: regions.share,
    }
}

// Do lengths never rise?
fn never_rise(lengths: &[u32]) -> bool
    ensures { result ≡ never_rise (length lengths.now) (length_of lengths.now) }
{
    lengths.windows(2).all(|pair| pair[1] <= pair[0])
}

// Has a plan that no check refuses the fewest cells added up? It has exactly where lengths never rise along its order.
fn fewest(plan: Plan) -> bool
    requires { plan_refusal plan ≡ 0 }
    ensures { result ≡ fewest_added (lists_of plan) }
{
    let n = plan.axes as usize;
    let along = in_order(&plan.lengths, &plan.order[..n], 0);
    never_rise(&along[..n])
}

// The public entry: a plan's prices with its mark, or its refusal.
pub fn price(plan: Plan) -> Result<Marked, Refusal>
    ensures { reply_of result ≡ pricing plan }
{
    check_plan(plan)?;
    Ok(Marked {
        prices: prices(plan),
        fewest: fewest(plan),
    })
}
