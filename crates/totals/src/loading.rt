// The points of a tape.
ghost use Rattle.std.specs.Prelude.{◌≡◌, ◌≤◌, length, take, IfOk, IfErr};
ghost use Rattle.cube_spec.specs.Refusals.{reply_of};
ghost use Rattle.totals_check.specs.Judging.{judging};
ghost use Rattle.tape_spec.specs.Reading.{reading};
ghost use Rattle.totals_line.specs.Standing.{campaign_of};
ghost use Rattle.totals_group.specs.Grouped.{Small};

use cube_spec::refusals::Refusal;
use plan_spec::types::Planned;
use run_check::points_of;
use tape_fill::fill_scanned;

// Reads every point, which fits its type.
pub fn bounded(points: &[i32])
    ensures { Small points.now }
{
    for &_point in points {}
}

// Puts the points at the start of the slice, and gives how many there are; none of a tape that is refused. Judging has scanned the tape.
pub fn load(tape: &[u8], judged: Result<Planned, Refusal>, points: &mut [i32]) -> usize
    requires { (reply_of judged ≡ judging tape.now) × (length points.old ≡ 8192) }
    ensures { (result ≤ length points.new)
        × IfOk judged (λ planned. (take result points.new ≡ (campaign_of tape.now).points) × (points.new ≡ reading tape.now points.old))
        × IfErr judged (λ refusal. (result ≡ 0) × (points.new ≡ points.old)) }
{
    let Ok(planned) = judged else {
        return 0;
    };
    fill_scanned(tape, points);
    points_of(planned.plan) as usize
}
