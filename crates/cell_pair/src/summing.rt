// Boxes of sums over points of the array, which are read through strides, and of counts, in one reading. That is why the loops that sum alone don't serve:
// they write one area, and two passes take twice the time.
ghost use Rattle.std.specs.Prelude.{◌≡◌, ◌+◌, ◌*◌, ◌≤◌, ◌<◌, length};
ghost use Rattle.cube_spec.specs.Boxes.{sum_z};
ghost use Rattle.cube_spec.specs.Shots.{values, shots};
ghost use Rattle.cell_spec.specs.Wrapped.{wrapped};
ghost use Rattle.cell_spec.specs.Rows.{every, written};
ghost use Rattle.cell_spec.specs.Strides.{box_size, box_sums, Sums};
ghost use Rattle.cell_row.specs.Combs.{Within, sums};

use crate::points::{shot, value};
use crate::rows::sum_rows;
use crate::runs::sum_runs;
use cell_row::combs::Comb;

// A sum with its count.
#[derive(Clone, Copy, Debug)]
pub struct Both {
    pub sum: i64,
    pub count: i64,
}

// The sum and the count of n points of the array, each step further than the one before.
fn sum_points(array: &[i32], at: usize, n: usize, step: usize) -> Both
    requires { at + n * step < length array.now + step }
    ensures { (result.sum ≡ wrapped (sum_z n (every (values array.now) at step)))
        × (result.count ≡ wrapped (sum_z n (every (shots array.now) at step))) }
{
    let mut sum: i64 = 0;
    let mut count: i64 = 0;
    for m in 0..n {
        let x = array[at + m * step];
        sum = sum.wrapping_add(value(x));
        count = count.wrapping_add(shot(x));
    }
    Both { sum, count }
}

// The sums and counts one by one.
fn sum_each(work: &mut [i64], counts: &mut [i64], array: &[i32], comb: Comb, dst: usize)
    requires { (Within comb (length array.now)) × (dst + comb.count ≤ length work.old) × (dst + comb.count ≤ length counts.old) }
    ensures { (work.new ≡ written work.old dst comb.count (sums comb (values array.now)))
        × (counts.new ≡ written counts.old dst comb.count (sums comb (shots array.now))) }
{
    for i in 0..comb.count {
        let both = sum_points(array, comb.first + i * comb.apart, comb.values, comb.step);
        work[dst + i] = both.sum;
        counts[dst + i] = both.count;
    }
}

// The sums and counts by the fastest way: rows and runs in 32-bit numbers, where these hold the sums, the others one by one.
fn sum_line(work: &mut [i64], counts: &mut [i64], array: &[i32], comb: Comb, dst: usize)
    requires { (Within comb (length array.now)) × (dst + comb.count ≤ length work.old) × (dst + comb.count ≤ length counts.old) }
    ensures { (work.new ≡ written work.old dst comb.count (sums comb (values array.now)))
        × (counts.new ≡ written counts.old dst comb.count (sums comb (shots array.now))) }
{
    let small = comb.values <= 65536;
    if small && comb.apart == 1 && 7 < comb.count {
        sum_rows(work, counts, array, comb, dst);
    } else if small && comb.step == 1 {
        sum_runs(work, counts, array, comb, dst);
    } else {
        sum_each(work, counts, array, comb, dst);
    }
}

// The sums and counts of a box, m axes from axis d on, in as many cells from dst on of each area; the n points of a sum stand step apart. Gives their number.
pub fn sum_box(
    work: &mut [i64],
    counts: &mut [i64],
    array: &[i32],
    extents: &[usize],
    strides: &[usize],
    m: usize,
    d: usize,
    at: usize,
    n: usize,
    step: usize,
    dst: usize,
) -> usize
    requires { (Sums (length work.old) (length array.now) extents.now strides.now m d at n step dst)
        × (Sums (length counts.old) (length array.now) extents.now strides.now m d at n step dst) }
    ensures { (result ≡ box_size extents.now m d)
        × (work.new ≡ written work.old dst (box_size extents.now m d)
        (box_sums (values array.now) extents.now strides.now m d at n step))
        × (counts.new ≡ written counts.old dst (box_size extents.now m d)
        (box_sums (shots array.now) extents.now strides.now m d at n step)) }
{
    if m == 0 {
        let both = sum_points(array, at, n, step);
        work[dst] = both.sum;
        counts[dst] = both.count;
        return 1;
    }
    let e = extents[d];
    let t = strides[d];
    if m == 1 {
        let comb = Comb {
            first: at,
            apart: t,
            count: e,
            step,
            values: n,
        };
        sum_line(work, counts, array, comb, dst);
        return e;
    }
    let mut to = dst;
    for x in 0..e {
        let size = sum_box(
            work,
            counts,
            array,
            extents,
            strides,
            m - 1,
            d + 1,
            at + x * t,
            n,
            step,
            to,
        );
        to += size;
    }
    to - dst
}
