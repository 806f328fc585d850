// Boxes of sums over points of the array, which are read through strides.
ghost use Rattle.std.specs.Prelude.{◌≡◌, ◌+◌, ◌*◌, ◌≤◌, ◌<◌, length};
ghost use Rattle.cell_spec.specs.Rows.{combs, written, added_to};
ghost use Rattle.cell_spec.specs.Strides.{box_size, box_sums, Sums};
ghost use Rattle.cell_row.specs.Combs.{Within, sums};

use cell_row::adding::{add_values, clear};
use cell_row::combs::{Comb, sum_combs, sum_each, sum_every};

// Adds four rows of n points, t apart, to n cells: a cell is fetched once for four points.
fn add_four(work: &mut [i64], array: &[i32], at: usize, n: usize, t: usize, dst: usize)
    requires { (at + n * 1 + 4 * t < length array.now + 1 + t) × (dst + n ≤ length work.old) }
    ensures { work.new ≡ written work.old dst n (added_to work.old dst (combs array.now at 1 4 t)) }
{
    for i in 0..n {
        let sum = sum_every(array, at + i, 4, t);
        work[dst + i] = work[dst + i].wrapping_add(sum);
    }
}

// The sums of neighbours, row by row: as many points apart as a sum has, registers would read each row's memory again and again.
fn sum_rows(work: &mut [i64], array: &[i32], comb: Comb, dst: usize)
    requires { (Within comb (length array.now)) × (comb.apart ≡ 1) × (dst + comb.count ≤ length work.old) }
    ensures { work.new ≡ written work.old dst comb.count (sums comb array.now) }
{
    let n = comb.count;
    let t = comb.step;
    let fours = comb.values / 4;
    clear(work, dst, n);
    for k in 0..fours {
        add_four(work, array, comb.first + 4 * k * t, n, t, dst);
    }
    for m in 4 * fours..comb.values {
        add_values(work, array, comb.first + m * t, dst, n);
    }
}

// The sums of any comb. No part of `sum_line`, whose loops would leave it too few registers for points that lie far apart.
#[inline(never)]
fn sum_apart(work: &mut [i64], array: &[i32], comb: Comb, dst: usize)
    requires { (Within comb (length array.now)) × (dst + comb.count ≤ length work.old) }
    ensures { work.new ≡ written work.old dst comb.count (sums comb array.now) }
{
    sum_combs(work, array, comb, dst);
}

// The sums by whichever way is faster. Where sums are neighbours, or 32 values or more, the 1 is written out, for loops that are made for it: of fewer values
// such loops take longer than the others.
fn sum_line(work: &mut [i64], array: &[i32], comb: Comb, dst: usize)
    requires { (Within comb (length array.now)) × (dst + comb.count ≤ length work.old) }
    ensures { work.new ≡ written work.old dst comb.count (sums comb array.now) }
{
    if comb.apart == 1 {
        if 15 < comb.values && 31 < comb.count {
            sum_rows(work, array, comb, dst);
        } else {
            sum_combs(work, array, Comb { apart: 1, ..comb }, dst);
        }
    } else if comb.step == 1 && 31 < comb.values {
        if 127 < comb.values {
            sum_each(work, array, Comb { step: 1, ..comb }, dst);
        } else {
            sum_combs(work, array, Comb { step: 1, ..comb }, dst);
        }
    } else {
        sum_apart(work, array, comb, dst);
    }
}

// The sums of a box, m axes from axis d on, in as many cells from dst on; the n points of a sum stand step apart. Gives their number.
pub fn sum_box(
    work: &mut [i64],
    array: &[i32],
    extents: &[usize],
    strides: &[usize],
    m: usize,
    d: usize,
    at: usize,
    n: usize,
    step: usize,
    dst: usize,
) -> usize
    requires { Sums (length work.old) (length array.now) extents.now strides.now m d at n step dst }
    ensures { (result ≡ box_size extents.now m d) × (work.new ≡ written work.old dst (box_size extents.now m d)
        (box_sums array.now extents.now strides.now m d at n step)) }
{
    if m == 0 {
        work[dst] = sum_every(array, at, n, step);
        return 1;
    }
    let e = extents[d];
    let t = strides[d];
    if m == 1 {
        let comb = Comb {
            first: at,
            apart: t,
            count: e,
            step,
            values: n,
        };
        sum_line(work, array, comb, dst);
        return e;
    }
    let mut to = dst;
    for x in 0..e {
        let size = sum_box(
            work,
            array,
            extents,
            strides,
            m - 1,
            d + 1,
            at + x * t,
            n,
            step,
            to,
        );
        to += size;
    }
    to - dst
}
