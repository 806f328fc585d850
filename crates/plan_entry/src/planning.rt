ghost use Rattle.std.specs.Prelude.{◌≡◌, ◌-◌, ◌^◌, ◌≤◌, length};
ghost use Rattle.cube_spec.specs.Limits.{axis_limit, power_limit};
ghost use Rattle.cube_spec.specs.Refusals.{refused_by, reply_of};
ghost use Rattle.plan_spec.specs.Rule.{power_used};
ghost use Rattle.plan_spec.specs.Refusals.{planning_refusal};
ghost use Rattle.plan_spec.specs.Answers.{planning};

use cube_spec::refusals::Refusal;
use plan_check::{check_lengths, room_of};
use plan_order::{by_axis, slots};
use plan_price::pricing::prices;
use plan_rule::rule::arrange;
use plan_spec::types::{Plan, Planned};

// What is wrong with lengths and a p that planning is asked for: 3 to 6, in order.
pub fn check_planning(lengths: &[u32], p: u8) -> Result<(), Refusal>
    ensures { refused_by result ≡ planning_refusal lengths.now p }
{
    if lengths.is_empty() || 8 < lengths.len() {
        return Err(Refusal::Axes);
    }
    check_lengths(lengths)?;
    if 10 < p {
        return Err(Refusal::Boards);
    }
    Ok(())
}

// The p that planning uses: the smaller of the p asked for and the room.
pub fn power_used(lengths: &[u32], p: u8) -> u8
    requires { length lengths.now ≤ axis_limit }
    ensures { result ≡ power_used lengths.now p }
{
    u32::from(p).min(room_of(lengths)) as u8
}

// How many of 2^p boards are idle, if 2^used of them are used.
pub fn idle_of(p: u8, used: u8) -> u32
    requires { (used ≤ p) × (p ≤ power_limit) }
    ensures { result ≡ 2 ^ p - 2 ^ used }
{
    (1u32 << p) - (1u32 << used)
}

// Planning: the plan for lengths and p with what it moves, adds and needs, and how many boards stand idle; or the refusal (3 to 6, in order).
pub fn plan(lengths: &[u32], p: u8) -> Result<Planned, Refusal>
    ensures { reply_of result ≡ planning lengths.now p }
{
    check_planning(lengths, p)?;
    let n = lengths.len();
    let used = power_used(lengths, p);
    let arrangement = arrange(lengths, used);
    let plan = Plan {
        axes: n as u8,
        p: used,
        lengths: slots(lengths),
        order: arrangement.order,
        exponents: by_axis(&arrangement.exponents, &arrangement.order[..n]),
    };
    Ok(Planned {
        plan,
        prices: prices(plan),
        idle: idle_of(p, used),
    })
}
