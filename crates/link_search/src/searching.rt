ghost use Rattle.std.specs.Prelude.{◌≡◌, ◌-◌, ◌*◌, ◌≤◌};
ghost use Rattle.cube_spec.specs.Boxes.{pick};
ghost use Rattle.cube_spec.specs.Refusals.{reply_of};
ghost use Rattle.link_spec.specs.Search.{smallest, bad_link, bad_links, searching};

use cube_spec::refusals::Refusal;
use link_division::trying::try_divisions;
use link_spec::types::Searched;
use plan_entry::planning::plan;

// Is a link weight 0 or over 1,000?
#[tactic(auto, unfolding(link_spec::specs::Search::bad_link))]
fn out_of_range(weight: u32) -> bool
    ensures { result ≡ bad_link weight }
{
    weight == 0 || 1000 < weight
}

// Is one, or is there not one for each axis?
fn bad_links(links: &[u32], axes: usize) -> bool
    ensures { result ≡ bad_links axes links.now }
{
    links.len() != axes || links.iter().any(|&weight| out_of_range(weight))
}

// The smallest link weight.
fn smallest_of(links: &[u32]) -> u32
    ensures { result ≡ smallest links.now }
{
    links.iter().copied().min().unwrap_or(0)
}

// 0 once all are priced, else the cost less the smallest link weight for each value that must move.
fn distance_of(all: bool, cost: u64, weight: u32, moved: u64) -> u64
    requires { weight * moved ≤ cost }
    ensures { result ≡ pick all 0 (cost - weight * moved) }
{
    if all {
        return 0;
    }
    cost - u64::from(weight) * moved
}

// The search: the first cheapest of the first so many divisions of the boards in use, with its distance; or the refusal (3 to 6, 18, 19, in order).
pub fn search_links(lengths: &[u32], p: u8, links: &[u32], budget: u64) -> Result<Searched, Refusal>
    ensures { reply_of result ≡ searching lengths.now p links.now budget }
{
    let planned = plan(lengths, p)?;
    if budget == 0 {
        return Err(Refusal::Budget);
    }
    if bad_links(links, lengths.len()) {
        return Err(Refusal::Links);
    }
    let found = try_divisions(lengths, links, planned.plan.p, budget);
    let moved = planned.prices.moved;
    let distance = distance_of(found.all, found.cost, smallest_of(links), moved);
    let exponents = found.exponents;
    Ok(Searched {
        exponents,
        cost: found.cost,
        distance,
        priced: found.priced,
    })
}
