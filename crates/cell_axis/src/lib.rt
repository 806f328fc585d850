// One axis of cells that stand row-major, summed out.
#![tactic(auto)]

ghost use Rattle.std.specs.Prelude.{◌≡◌, ◌+◌, ◌*◌, ◌≤◌, ◌<◌, length};
ghost use Rattle.cell_spec.specs.Rows.{from, written, axis_sums};

use cell_row::adding::clear;
use cell_row::combs::{Comb, sum_combs};

// Sums out the middle axis of (outer, extent, inner) cells of the parent, block by block.
fn sum_blocks(
    child: &mut [i64],
    parent: &[i64],
    src: usize,
    outer: usize,
    extent: usize,
    inner: usize,
)
    requires { (0 < extent) × (src + outer * (extent * inner) ≤ length parent.now) × (outer * inner ≤ length child.old) }
    ensures { child.new ≡ written child.old 0 (outer * inner) (axis_sums (from parent.now src) extent inner) }
{
    for o in 0..outer {
        let rows = Comb {
            first: src + o * (extent * inner),
            apart: 1,
            count: inner,
            step: inner,
            values: extent,
        };
        sum_combs(child, parent, rows, o * inner);
    }
}

// Sums out the middle axis of (outer, e, inner) cells.
pub fn sum_axis(work: &mut [i64], src: usize, dst: usize, outer: usize, e: usize, inner: usize)
    requires { (src + outer * (e * inner) ≤ dst) × (dst + outer * inner ≤ length work.old) }
    ensures { work.new ≡ written work.old dst (outer * inner) (axis_sums (from work.old src) e inner) }
{
    if e == 0 {
        clear(work, dst, outer * inner);
        return;
    }
    // All that is read stands left of dst.
    let (parent, child) = work.split_at_mut(dst);
    if inner == 1 {
        let runs = Comb {
            first: src,
            apart: e,
            count: outer,
            step: 1,
            values: e,
        };
        sum_combs(child, &*parent, runs, 0);
    } else {
        sum_blocks(child, &*parent, src, outer, e, inner);
    }
}
