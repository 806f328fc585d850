// Sums of runs of neighbours.
ghost use Rattle.std.specs.Prelude.{◌≡◌, ◌+◌, ◌≤◌, ◌<◌, length};
ghost use Rattle.cube_spec.specs.Shots.{values, shots};
ghost use Rattle.cell_spec.specs.Rows.{written};
ghost use Rattle.cell_row.specs.Combs.{Within, sums};
ghost use Rattle.cell_pair.specs.Tiles.{Column};

use crate::points::{counted, raised};
use crate::tiles::{Columns, Halves};
use cell_row::combs::Comb;

// Sums the e neighbours from a place on.
fn sum_run(array: &[i32], at: usize, e: usize) -> Halves
    requires { (at + e ≤ length array.now) × (e ≤ 65536) }
    ensures { Column array.now at 1 e result.low result.high result.hits }
{
    let mut low: u32 = 0;
    let mut high: u32 = 0;
    let mut hits: u32 = 0;
    for m in 0..e {
        let b = raised(array[at + m]);
        low += b % 65536;
        high += b / 65536;
        hits += counted(b);
    }
    Halves { low, high, hits }
}

// The sums and counts of up to 16 runs.
fn sum_some(work: &mut [i64], counts: &mut [i64], array: &[i32], comb: Comb, dst: usize)
    requires { (Within comb (length array.now)) × (comb.step ≡ 1) × (comb.count ≤ 16) × (comb.values ≤ 65536)
        × (dst + comb.count ≤ length work.old) × (dst + comb.count ≤ length counts.old) }
    ensures { (work.new ≡ written work.old dst comb.count (sums comb (values array.now)))
        × (counts.new ≡ written counts.old dst comb.count (sums comb (shots array.now))) }
{
    let mut columns = Columns::<16>::new();
    for i in 0..comb.count {
        let run = sum_run(array, comb.first + i * comb.apart, comb.values);
        columns.put(i, run);
    }
    columns.write_sums(work, comb.count, dst);
    columns.write_counts(counts, comb.count, dst);
}

// The sums and counts of any number of runs, 16 at a time.
pub fn sum_runs(work: &mut [i64], counts: &mut [i64], array: &[i32], comb: Comb, dst: usize)
    requires { (Within comb (length array.now)) × (comb.step ≡ 1) × (comb.values ≤ 65536)
        × (dst + comb.count ≤ length work.old) × (dst + comb.count ≤ length counts.old) }
    ensures { (work.new ≡ written work.old dst comb.count (sums comb (values array.now)))
        × (counts.new ≡ written counts.old dst comb.count (sums comb (shots array.now))) }
{
    for k in 0..comb.count / 16 {
        sum_some(work, counts, array, comb.part(16 * k, 16), dst + 16 * k);
    }
    let rest = comb.count % 16;
    if 0 < rest {
        let done = comb.count - rest;
        sum_some(work, counts, array, comb.part(done, rest), dst + done);
    }
}
