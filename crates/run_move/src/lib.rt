// A transfer on the work area.
#![tactic(auto)]

ghost use Rattle.std.specs.Prelude.{◌≡◌, [], length};
ghost use Rattle.rack_spec.specs.Steps.{transfer};
ghost use Rattle.rack_spec.specs.Finding.{plan_grid, summed_in};
ghost use Rattle.run_spec.specs.Memory.{stepped};
ghost use Rattle.run_spec.specs.Taking.{Taking};

use cell_row::adding::add_row;
use plan_spec::types::Plan;
use rack_grid::places::{next_of, region_at};
use rack_spec::types::Transfer;

// Adds the sender's cells of a choice to the receiver's; both stand at the start of the region of the last summed axis.
pub fn move_cells(plan: Plan, t: Transfer, work: &mut [i64])
    requires { Taking plan (transfer (summed_in plan t.choice.mask) t.sender t.receiver t.values) (length work.old) }
    ensures { work.new ≡ stepped (plan_grid plan) [] (transfer (summed_in plan t.choice.mask) t.sender t.receiver t.values) work.old }
{
    let next = next_of(plan, t.choice);
    let src = region_at(plan, t.sender as u64, next - 1);
    let dst = region_at(plan, t.receiver as u64, next - 1);
    add_row(work, src as usize, dst as usize, t.values as usize);
}
