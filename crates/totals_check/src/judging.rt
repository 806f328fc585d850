// Whether the program takes a tape, and its plan.
ghost use Rattle.std.specs.Prelude.{◌≡◌};
ghost use Rattle.cube_spec.specs.Refusals.{reply_of};
ghost use Rattle.totals_check.specs.Judging.{judging};

use cube_spec::refusals::Refusal;
use plan_entry::planning::plan;
use plan_spec::types::Planned;
use run_check::{area_of, points_of};
use tape_scan::scan;

// 1, 2, 14 or 15, 3 to 6, 10 and 11, in order: the refusal, or else the plan, its prices and the idle boards.
pub fn judge(tape: &[u8]) -> Result<Planned, Refusal>
    ensures { reply_of result ≡ judging tape.now }
{
    let found = scan(tape)?;
    if 8 < found.axes {
        return Err(Refusal::Axes);
    }
    let lengths = found.lengths;
    let planned = plan(&lengths[..found.axes as usize], found.p)?;
    let points = points_of(planned.plan);
    if points != found.points {
        return Err(Refusal::Array);
    }
    if 8192 < points {
        return Err(Refusal::Memory);
    }
    let area = area_of(planned.plan);
    if 8192 < area {
        return Err(Refusal::Memory);
    }
    Ok(planned)
}
