ghost use Rattle.std.specs.Prelude.{◌≡◌, ◌≤◌, length};
ghost use Rattle.cube_spec.specs.Limits.{axis_limit, padded};
ghost use Rattle.cube_spec.specs.Ways.{log2};
ghost use Rattle.link_spec.specs.Stepping.{caps_of};
ghost use Rattle.link_spec.specs.Trying.{tried, Searchable};

use crate::pricing::division_cost;
use crate::stepping::{fill, next};
use link_spec::types::Tried;
use plan_check::log2_of;

// The largest exponent of an axis.
fn cap_of(length: u32) -> u8
    ensures { result ≡ log2 length }
{
    log2_of(length) as u8
}

// That of each axis.
fn caps_of(lens: &[u32]) -> [u8; 8]
    requires { length lens.now ≤ axis_limit }
    ensures { result ≡ padded (caps_of lens.now) }
{
    let mut out = [0u8; 8];
    for i in 0..lens.len() {
        out[i] = cap_of(lens[i]);
    }
    out
}

// The first cheapest of the first so many divisions.
pub fn try_divisions(lens: &[u32], links: &[u32], q: u8, budget: u64) -> Tried
    requires { Searchable lens.now links.now q × (1 ≤ budget) }
    ensures { result ≡ tried lens.now q links.now budget }
{
    let n = lens.len();
    let caps = caps_of(lens);
    let mut at = [0u8; 8];
    fill(&mut at[..n], &caps[..n], q);
    let mut best = at;
    let mut least = division_cost(lens, links, &at[..n]);
    for priced in 1..budget {
        if !next(&mut at[..n], &caps[..n]) {
            return Tried {
                exponents: best,
                cost: least,
                priced,
                all: true,
            };
        }
        let cost = division_cost(lens, links, &at[..n]);
        if cost < least {
            best = at;
            least = cost;
        }
    }
    let more = next(&mut at[..n], &caps[..n]);
    Tried {
        exponents: best,
        cost: least,
        priced: budget,
        all: !more,
    }
}
