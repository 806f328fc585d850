// The report, written line by line.
ghost use Rattle.std.specs.Prelude.{◌≡◌, ◌≤◌, ◌<◌, length, take, IfOk};
ghost use Rattle.cube_spec.specs.Limits.{tape_limit};
ghost use Rattle.cube_spec.specs.Refusals.{reply_of};
ghost use Rattle.report_spec.specs.Printed.{line_at};
ghost use Rattle.totals_check.specs.Judging.{judging};
ghost use Rattle.totals_line.specs.Standing.{campaign_of};
ghost use Rattle.totals_group.specs.Grouped.{Small};
ghost use Rattle.totals.specs.Endings.{Ends, EndsAfter};

use crate::loading::{bounded, load};
use crate::types::Stopped;
use cube_spec::refusals::Refusal;
use plan_spec::types::Planned;
use totals_check::judging::judge;
use totals_line::next_line;

// Writes line k, which the buffer has at its start; gives whether the system took all of it. The tape and k are lent for the contract alone.
fn write(tape: &[u8], k: u64, out: &[u8], used: usize) -> bool
    requires { (used ≤ length out.now) × (take used out.now ≡ line_at tape.now k) }
{
    io::write_all(1, &out[..used])
}

// Writes line after line, up to the last one or to a write that fails; gives how many were taken. The loop ends where no line is left,
// so its count is its answer and no range.
fn print_lines(
    tape: &[u8],
    judged: Result<Planned, Refusal>,
    points: &[i32],
    work: &mut [i64],
    cells: &mut [i64],
    out: &mut [u8],
) -> Result<u64, Stopped>
    requires { (reply_of judged ≡ judging tape.now) × IfOk judged (λ planned. points.now ≡ (campaign_of tape.now).points)
        × Small points.now × (length work.old ≡ 8192) × (length cells.old ≡ 8192) × (length out.old ≡ 172064) }
    ensures { Ends tape.now result }
{
    let mut lines: u64 = 0;
    let mut position: u64 = 0;
    loop {
        let used = next_line(tape, judged, lines, points, work, &mut position, cells, out);
        if used == 0 {
            return Ok(lines);
        }
        let taken = write(tape, lines, out, used);
        if !taken {
            return Err(Stopped { lines, taken });
        }
        lines += 1;
    }
}

// From a tape to its report.
fn print_tape(
    tape: &[u8],
    points: &mut [i32],
    work: &mut [i64],
    cells: &mut [i64],
    out: &mut [u8],
) -> Result<u64, Stopped>
    requires { (length points.old ≡ 8192) × (length work.old ≡ 8192) × (length cells.old ≡ 8192) × (length out.old ≡ 172064) }
    ensures { Ends tape.now result }
{
    let judged = judge(tape);
    let n = load(tape, judged, points);
    let points = &points[..n];
    bounded(points);
    print_lines(tape, judged, points, work, cells, out)
}

// From the first n bytes of a space to the report. The space has room for more bytes than a tape may have: of an input that goes on, the bytes that it has
// no room for do not matter. The lent slices stay apart, as `main` lends them (docs/PROMISES.md names this function).
pub fn print(
    space: &[u8],
    n: usize,
    points: &mut [i32],
    work: &mut [i64],
    cells: &mut [i64],
    out: &mut [u8],
) -> Result<u64, Stopped>
    requires { (tape_limit < length space.now) × (n ≤ length space.now) × (length points.old ≡ 8192) × (length work.old ≡ 8192)
        × (length cells.old ≡ 8192) × (length out.old ≡ 172064) }
    ensures { EndsAfter space.now n result }
{
    print_tape(&space[..n], points, work, cells, out)
}
