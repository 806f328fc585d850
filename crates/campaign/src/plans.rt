// Planning and pricing, for C.
ghost use Rattle.std.specs.Prelude.{◌≡◌, length};
ghost use Rattle.cube_spec.specs.Refusals.{refused_by};
ghost use Rattle.controller.specs.Bytes.{controller_refusal, written};
ghost use Rattle.campaign_slices.specs.Racks.{plan_from, price_refusal, priced};
ghost use Rattle.campaign.specs.Calls.{idle_refusal, idling, made, making};

use campaign_slices::{plan_from, put_marked, put_number, put_plan, put_prices};
use controller::asked;
use cube_spec::refusals::{Refusal, answer};
use plan_entry::planning::plan;
use plan_price::pricing::price;
use plan_spec::types::Plan;

// Planning for a rack controller: lengths as 2-byte little-endian pairs and p. The result of 2n bytes gets the axis numbers and then the exponents,
// both in plan order; these sum to the p used.
#[unsafe(no_mangle)]
pub extern "C" fn campaign_plan(lengths: &[u8], p: u8, res: &mut [u8]) -> u8
    ensures { (result ≡ controller_refusal lengths.now p (length res.old))
        × (res.new ≡ written lengths.now p res.old) }
{
    controller::campaign_plan(lengths, p, res)
}

fn count_idle(lengths: &[u8], p: u8, idle: &mut [u64]) -> Result<(), Refusal>
    ensures { (refused_by result ≡ idle_refusal lengths.now p (length idle.old))
        × (idle.new ≡ idling lengths.now p idle.old) }
{
    let found = asked(lengths, p)?;
    put_number(idle, u64::from(found.idle))
}

// How many of the boards that a controller asks for stand idle: a slice of one cell gets their number.
#[unsafe(no_mangle)]
pub extern "C" fn campaign_idle(lengths: &[u8], p: u8, idle: &mut [u64]) -> u8
    ensures { (result ≡ idle_refusal lengths.now p (length idle.old))
        × (idle.new ≡ idling lengths.now p idle.old) }
{
    answer(count_idle(lengths, p, idle))
}

fn make(
    lengths: &[u32],
    p: u8,
    small: &mut [u8],
    slots: &mut [u32],
    cells: &mut [u64],
) -> Result<(), Refusal>
    ensures { made (refused_by result) small.new slots.new cells.new
        ≡ making lengths.now p small.old slots.old cells.old }
{
    let found = plan(lengths, p)?;
    if small.len() != 18 || slots.len() != 8 || cells.len() != 4 {
        return Err(Refusal::Result);
    }
    put_plan(small, slots, found.plan);
    put_prices(cells, found.prices, u64::from(found.idle))
}

// Planning with prices: two slices get the plan, and four cells the values moved, the cells added up, A and the idle boards.
#[unsafe(no_mangle)]
pub extern "C" fn campaign_make(
    lengths: &[u32],
    p: u8,
    small: &mut [u8],
    slots: &mut [u32],
    cells: &mut [u64],
) -> u8
    ensures { made result small.new slots.new cells.new
        ≡ making lengths.now p small.old slots.old cells.old }
{
    answer(make(lengths, p, small, slots, cells))
}

fn tell_prices(plan: Plan, prices: &mut [u64]) -> Result<(), Refusal>
    ensures { (refused_by result ≡ price_refusal plan (length prices.old)) × (prices.new ≡ priced plan prices.old) }
{
    put_marked(prices, price(plan)?)
}

// Pricing: four cells get the values moved, the cells added up, A and the mark, 1 where no way adds up fewer cells, else 0.
#[unsafe(no_mangle)]
pub extern "C" fn campaign_price(small: &[u8], lengths: &[u32], prices: &mut [u64]) -> u8
    ensures { (result ≡ price_refusal (plan_from small.now lengths.now) (length prices.old))
        × (prices.new ≡ priced (plan_from small.now lengths.now) prices.old) }
{
    answer(tell_prices(plan_from(small, lengths), prices))
}
