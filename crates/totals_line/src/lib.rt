// The report's lines, handed out one after the other.
#![tactic(auto)]

ghost use Rattle.std.specs.Prelude.{◌≡◌, ◌+◌, ◌≤◌, length};
ghost use Rattle.std.proofs.lemmas.List.Edits.{sets};
ghost use Rattle.report_spec.specs.Printed.{line_at};
ghost use Rattle.totals_line.specs.Standing.{Grouping, Stands};

use cube_spec::refusals::Refusal;
use plan_spec::types::Planned;
use report_line::reports::{dim_line, end_line, plan_line, refused_line};
use totals_group::groups::next_group;

// Puts the line after the first `handed` ones at the start of out and gives its length, 0 after the last line. The tape is lent for the contract alone.
// That 0 says that there is no line, and that the slices are lent apart, is what docs/PROMISES.md and its theorems speak of.
pub fn next_line(
    tape: &[u8],
    judged: Result<Planned, Refusal>,
    handed: u64,
    points: &[i32],
    work: &mut [i64],
    position: &mut u64,
    cells: &mut [i64],
    out: &mut [u8],
) -> usize
    requires { Stands tape.now judged handed points.now work.old position.old × (length cells.old ≡ 8192) × (length out.old ≡ 172064) }
    ensures { (result ≡ length (line_at tape.now handed)) × (result ≤ length out.new) × (out.new ≡ sets out.old 0 (line_at tape.now handed))
        × Stands tape.now judged (handed + 1) points.now work.new position.new
        × ((Grouping judged handed → ⊥) → (work.new ≡ work.old) × (position.new ≡ position.old)) }
{
    let planned = match judged {
        Ok(planned) => planned,
        Err(refusal) => {
            if handed != 0 {
                return 0;
            }
            return refused_line(out, refusal.number());
        }
    };
    let plan = planned.plan;
    if handed == 0 {
        return plan_line(out, plan, planned.prices);
    }
    let axes = u64::from(plan.axes);
    if handed <= axes {
        return dim_line(out, plan, (handed - 1) as usize);
    }
    let end = axes + (1u64 << axes);
    if handed < end {
        return next_group(plan, points, work, position, cells, out);
    }
    if handed == end {
        return end_line(out, end - axes - 1);
    }
    0
}
