// The group lines, each at the finish of its choice.
ghost use Rattle.std.specs.Prelude.{◌≡◌, [], ◌+◌, ◌*◌, ◌≤◌, ◌<◌, length, take, get_or};
ghost use Rattle.std.proofs.lemmas.List.Edits.{sets};
ghost use Rattle.cube_spec.specs.Choices as Choices;
ghost use Rattle.plan_spec.specs.Plans.{lists_of};
ghost use Rattle.plan_spec.specs.Refusals.{plan_refusal};
ghost use Rattle.totals_group.specs.Grouped.{Ready, groups_of, groups_before, group_text};

use cube_choice::types::Choice;
use plan_spec::types::Plan;
use rack_count::counts::{steps_of, tallies_of};
use rack_spec::types::Step;
use report_line::printing::put_group;
use run_gather::copying::gather;
use run_take::take;

// The line of the choice that the position finishes. Its cells go through the start of a slice with room for every choice.
fn put_finished(
    plan: Plan,
    choice: Choice,
    work: &[i64],
    position: u64,
    cells: &mut [i64],
    out: &mut [u8],
) -> usize
    requires { (plan_refusal plan ≡ 0) × (Choices.points (lists_of plan).lengths ≤ length cells.old) × (27 + 21 * length cells.old ≤ length out.old) }
    ensures { (result ≡ length (group_text plan work.now position choice.mask (take (Choices.cells (lists_of plan).lengths choice.mask) cells.old)))
        × (result ≤ length out.new)
        × (out.new ≡ sets out.old 0 (group_text plan work.now position choice.mask (take (Choices.cells (lists_of plan).lengths choice.mask) cells.old))) }
{
    let n = choice.cells(&plan.lengths[..plan.axes as usize]) as usize;
    let part = &mut cells[..n];
    let _gathered = gather(plan, work, position, part);
    put_group(out, choice.mask, part)
}

// Takes steps up to the next finish and puts its line, or nothing where no finish is left. The lent slices stay apart, and a line of no bytes is no line:
// docs/PROMISES.md names this function.
pub fn next_group(
    plan: Plan,
    points: &[i32],
    work: &mut [i64],
    position: &mut u64,
    cells: &mut [i64],
    out: &mut [u8],
) -> usize
    requires { Ready plan points.now work.old position.old × (length cells.old ≡ 8192) × (length out.old ≡ 172064) }
    ensures { (result ≡ length (get_or (groups_of plan points.now) (groups_before plan points.now position.old) [])) × (result ≤ length out.new)
        × (out.new ≡ sets out.old 0 (get_or (groups_of plan points.now) (groups_before plan points.now position.old) []))
        × Ready plan points.now work.new position.new
        × (groups_before plan points.now position.old < length (groups_of plan points.now)
        → groups_before plan points.now position.new ≡ groups_before plan points.now position.old + 1) }
{
    let total = steps_of(plan);
    let tallies = tallies_of(plan);
    while *position < total {
        let answer = take(plan, tallies, points, work, position);
        let Step::Finish(choice) = answer else {
            continue;
        };
        return put_finished(plan, choice, work, *position, cells, out);
    }
    0
}
