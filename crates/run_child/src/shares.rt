// The regions of a share, worked out once for all boards and children of an expansion.
ghost use Rattle.std.specs.Prelude.{◌≡◌, ◌+◌, ◌*◌, ◌^◌, ◌≤◌, ◌<◌, get_or};
ghost use Rattle.cube_spec.specs.Limits.{point_limit, padded};
ghost use Rattle.cube_spec.specs.Boxes.{table};
ghost use Rattle.plan_spec.specs.Refusals.{plan_refusal};
ghost use Rattle.rack_spec.specs.Grids.{share, region_start};
ghost use Rattle.rack_spec.specs.Finding.{plan_grid};

use plan_region::region_of;
use plan_spec::types::Plan;
use rack_grid::places::share_of;

// A, the cells of a share, and where each region of a share starts.
#[derive(Clone, Copy, Debug)]
pub struct Regions {
    pub share: u64,
    pub starts: [u64; 8],
}

// They are the same for every board.
pub fn regions_of(plan: Plan) -> Regions
    requires { plan_refusal plan ≡ 0 }
    ensures { (result.share ≡ share (plan_grid plan)) × (result.starts ≡ padded (table plan.axes (region_start (plan_grid plan))))
        × (result.share ≤ point_limit * 8) }
{
    let share = share_of(plan);
    let mut starts = [0u64; 8];
    for i in 0..plan.axes as usize {
        starts[i] = region_of(plan, i).start;
    }
    Regions { share, starts }
}

// Where region i of a board's share starts in the work area. It takes no plan, which would be copied at each call.
pub fn region_in(regions: Regions, board: u64, i: usize) -> u64
    requires { (board < 1024) × (regions.share ≤ point_limit * 8) × (i < 8) × (get_or regions.starts i 0 ≤ point_limit * 8) }
    ensures { (result ≡ board * regions.share + get_or regions.starts i 0) × (result < 2 ^ 38) }
{
    board * regions.share + regions.starts[i]
}
