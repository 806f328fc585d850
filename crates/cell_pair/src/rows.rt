// Sums of neighbouring columns, row by row.
ghost use Rattle.std.specs.Prelude.{◌≡◌, ◌+◌, ◌≤◌, ◌<◌, length};
ghost use Rattle.cube_spec.specs.Shots.{values, shots};
ghost use Rattle.cell_spec.specs.Rows.{written};
ghost use Rattle.cell_row.specs.Combs.{Within, sums};

use crate::tiles::Columns;
use cell_row::combs::Comb;

// The sums and counts of up to N columns.
fn sum_tile<const N: usize>(
    work: &mut [i64],
    counts: &mut [i64],
    array: &[i32],
    comb: Comb,
    dst: usize,
)
    requires { (N ≤ 1024) × (Within comb (length array.now)) × (comb.apart ≡ 1) × (comb.count ≤ N) × (comb.values ≤ 65536)
        × (dst + comb.count ≤ length work.old) × (dst + comb.count ≤ length counts.old) }
    ensures { (work.new ≡ written work.old dst comb.count (sums comb (values array.now)))
        × (counts.new ≡ written counts.old dst comb.count (sums comb (shots array.now))) }
{
    let mut columns = Columns::<N>::new();
    let fours = comb.values / 4;
    for k in 0..fours {
        columns.add_four(array, comb, 4 * k);
    }
    for m in 4 * fours..comb.values {
        columns.add_row(array, comb, m);
    }
    columns.write_sums(work, comb.count, dst);
    columns.write_counts(counts, comb.count, dst);
}

// Any number of columns, N at a time.
fn sum_tiles<const N: usize>(
    work: &mut [i64],
    counts: &mut [i64],
    array: &[i32],
    comb: Comb,
    dst: usize,
)
    requires { (0 < N) × (N ≤ 1024) × (Within comb (length array.now)) × (comb.apart ≡ 1) × (comb.values ≤ 65536)
        × (dst + comb.count ≤ length work.old) × (dst + comb.count ≤ length counts.old) }
    ensures { (work.new ≡ written work.old dst comb.count (sums comb (values array.now)))
        × (counts.new ≡ written counts.old dst comb.count (sums comb (shots array.now))) }
{
    for k in 0..comb.count / N {
        sum_tile::<N>(work, counts, array, comb.part(k * N, N), dst + k * N);
    }
    let rest = comb.count % N;
    if 0 < rest {
        let done = comb.count - rest;
        sum_tile::<N>(work, counts, array, comb.part(done, rest), dst + done);
    }
}

// Any number of columns, in wide tiles where there are rows enough to pay for clearing them: rows that lie far apart are then read a page at a time.
pub fn sum_rows(work: &mut [i64], counts: &mut [i64], array: &[i32], comb: Comb, dst: usize)
    requires { (Within comb (length array.now)) × (comb.apart ≡ 1) × (comb.values ≤ 65536)
        × (dst + comb.count ≤ length work.old) × (dst + comb.count ≤ length counts.old) }
    ensures { (work.new ≡ written work.old dst comb.count (sums comb (values array.now)))
        × (counts.new ≡ written counts.old dst comb.count (sums comb (shots array.now))) }
{
    if 31 < comb.values && 64 < comb.count {
        sum_tiles::<1024>(work, counts, array, comb, dst);
    } else {
        sum_tiles::<64>(work, counts, array, comb, dst);
    }
}
