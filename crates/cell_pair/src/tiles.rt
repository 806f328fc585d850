// A tile: columns of points summed in 32-bit numbers of their own, since such loops take four points in one instruction.
// Its sums are written before its counts: stores to two areas by turns are slow where the areas lie at an unlucky distance.
ghost use Rattle.std.specs.Prelude.{◌≡◌, ◌+◌, ◌*◌, ◌≤◌, ◌<◌, length, get_or, set, replicate, pos, ◌-ℤ◌};
ghost use Rattle.cell_spec.specs.Rows.{written};
ghost use Rattle.cell_row.specs.Combs.{Within};
ghost use Rattle.cell_pair.specs.Tiles.{low_of, high_of, count_of, Column, Tile, sums_of, counts_of};

use crate::points::{counted, raised};
use cell_row::combs::Comb;

// What a column holds: the sums of the two halves of its raised points, and how many were shot.
#[derive(Clone, Copy, Debug)]
pub struct Halves {
    pub low: u32,
    pub high: u32,
    pub hits: u32,
}

// The columns of a tile. Each number has an array of its own: an instruction takes four neighbours.
#[derive(Drop)]
pub struct Columns<const N: usize> {
    pub lows: [u32; N],
    pub highs: [u32; N],
    pub hits: [u32; N],
}

impl<const N: usize> Columns<N> {
    // No points yet.
    pub fn new() -> Columns<N>
        requires { N ≤ 1024 }
        ensures { (result.lows ≡ replicate N 0) × (result.highs ≡ replicate N 0) × (result.hits ≡ replicate N 0) }
    {
        Columns {
            lows: [0; N],
            highs: [0; N],
            hits: [0; N],
        }
    }

    // Adds a point to column i.
    fn add_point(&mut self, i: usize, x: i32)
        requires { (i < N) × (get_or self.old.lows i 0 + 65535 < 4294967296)
            × (get_or self.old.highs i 0 + 65535 < 4294967296) × (get_or self.old.hits i 0 + 1 < 4294967296) }
        ensures { (self.new.lows ≡ set self.old.lows i (get_or self.old.lows i 0 + low_of x))
            × (self.new.highs ≡ set self.old.highs i (get_or self.old.highs i 0 + high_of x))
            × (self.new.hits ≡ set self.old.hits i (get_or self.old.hits i 0 + count_of x)) }
    {
        let b = raised(x);
        self.lows[i] += b % 65536;
        self.highs[i] += b / 65536;
        self.hits[i] += counted(b);
    }

    // Adds four points to column i.
    fn add_points(&mut self, i: usize, w: i32, x: i32, y: i32, z: i32)
        requires { (i < N) × (get_or self.old.lows i 0 + 262140 < 4294967296)
            × (get_or self.old.highs i 0 + 262140 < 4294967296) × (get_or self.old.hits i 0 + 4 < 4294967296) }
        ensures { (self.new.lows ≡ set self.old.lows i (get_or self.old.lows i 0 + low_of w + low_of x + low_of y + low_of z))
            × (self.new.highs ≡ set self.old.highs i (get_or self.old.highs i 0 + high_of w + high_of x + high_of y + high_of z))
            × (self.new.hits ≡ set self.old.hits i (get_or self.old.hits i 0 + count_of w + count_of x + count_of y + count_of z)) }
    {
        let a = raised(w);
        let b = raised(x);
        let c = raised(y);
        let d = raised(z);
        self.lows[i] = self.lows[i] + a % 65536 + b % 65536 + c % 65536 + d % 65536;
        self.highs[i] = self.highs[i] + a / 65536 + b / 65536 + c / 65536 + d / 65536;
        self.hits[i] = self.hits[i] + counted(a) + counted(b) + counted(c) + counted(d);
    }

    // Adds row m of the comb, whose sums are neighbours.
    pub fn add_row(&mut self, array: &[i32], comb: Comb, m: usize)
        requires { (Within comb (length array.now)) × (comb.apart ≡ 1) × (comb.count ≤ N) × (comb.values ≤ 65536) × (m < comb.values)
            × (Tile array.now comb.first 1 comb.step comb.count m self.old.lows self.old.highs self.old.hits) }
        ensures { Tile array.now comb.first 1 comb.step comb.count (m + 1) self.new.lows self.new.highs self.new.hits }
    {
        let p = comb.first + m * comb.step;
        for i in 0..comb.count {
            self.add_point(i, array[p + i]);
        }
    }

    // Adds rows m to m + 3.
    pub fn add_four(&mut self, array: &[i32], comb: Comb, m: usize)
        requires { (Within comb (length array.now)) × (comb.apart ≡ 1) × (comb.count ≤ N) × (comb.values ≤ 65536) × (m + 4 ≤ comb.values)
            × (Tile array.now comb.first 1 comb.step comb.count m self.old.lows self.old.highs self.old.hits) }
        ensures { Tile array.now comb.first 1 comb.step comb.count (m + 4) self.new.lows self.new.highs self.new.hits }
    {
        let t = comb.step;
        let p = comb.first + m * t;
        for i in 0..comb.count {
            let w = array[p + i];
            let x = array[p + t + i];
            let y = array[p + 2 * t + i];
            let z = array[p + 3 * t + i];
            self.add_points(i, w, x, y, z);
        }
    }

    // Sets column i.
    pub fn put(&mut self, i: usize, column: Halves)
        requires { i < N }
        ensures { (self.new.lows ≡ set self.old.lows i column.low) × (self.new.highs ≡ set self.old.highs i column.high) × (self.new.hits ≡ set self.old.hits i column.hits) }
    {
        self.lows[i] = column.low;
        self.highs[i] = column.high;
        self.hits[i] = column.hits;
    }

    // Writes the sums of n columns.
    pub fn write_sums(&self, work: &mut [i64], n: usize, dst: usize)
        requires { (n ≤ N) × (dst + n ≤ length work.old) }
        ensures { work.new ≡ written work.old dst n (sums_of self.now.lows self.now.highs self.now.hits) }
    {
        write_sums(work, &self.lows, &self.highs, &self.hits, n, dst);
    }

    // Writes the counts of n columns.
    pub fn write_counts(&self, counts: &mut [i64], n: usize, dst: usize)
        requires { (n ≤ N) × (dst + n ≤ length counts.old) }
        ensures { counts.new ≡ written counts.old dst n (counts_of self.now.hits) }
    {
        write_counts(counts, &self.hits, n, dst);
    }
}

// The sum of a column's shot points.
fn lowered(low: u32, high: u32, hits: u32) -> i64
    ensures { result ≡ pos (high * 65536 + low) -ℤ pos (hits * 2147483648) }
{
    i64::from(high) * 65536 + i64::from(low) - i64::from(hits) * 2147483648
}

// Writes the sums of n columns.
pub fn write_sums(work: &mut [i64], lows: &[u32], highs: &[u32], hits: &[u32], n: usize, dst: usize)
    requires { (n ≤ length lows.now) × (n ≤ length highs.now) × (n ≤ length hits.now) × (dst + n ≤ length work.old) }
    ensures { work.new ≡ written work.old dst n (sums_of lows.now highs.now hits.now) }
{
    for i in 0..n {
        work[dst + i] = lowered(lows[i], highs[i], hits[i]);
    }
}

// Writes the counts of n columns.
pub fn write_counts(counts: &mut [i64], hits: &[u32], n: usize, dst: usize)
    requires { (n ≤ length hits.now) × (dst + n ≤ length counts.old) }
    ensures { counts.new ≡ written counts.old dst n (counts_of hits.now) }
{
    for i in 0..n {
        counts[dst + i] = i64::from(hits[i]);
    }
}
