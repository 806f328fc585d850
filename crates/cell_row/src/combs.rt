// Sums of values that stand apart, several in a row.
ghost use Rattle.std.specs.Prelude.{◌≡◌, ◌+◌, ◌*◌, ◌^◌, ◌≤◌, ◌<◌, length, map};
ghost use Rattle.cube_spec.specs.Boxes.{sum_z};
ghost use Rattle.cell_spec.specs.Wrapped.{wrapped};
ghost use Rattle.cell_spec.specs.Rows.{every, written};

use crate::addend::Addend;

// A row of sums that stand `apart`; the values of a sum stand `step` apart, and the first value of the first sum at `first`.
#[derive(Clone, Copy, Debug)]
pub struct Comb {
    pub first: usize,
    pub apart: usize,
    pub count: usize,
    pub step: usize,
    pub values: usize,
}

impl Comb {
    ghost use Rattle.cell_row.specs.Combs.{part};

    // n of its sums, from sum i on.
    pub fn part(self, i: usize, n: usize) -> Comb
        requires { self.first + i * self.apart < 2 ^ 64 }
        ensures { result ≡ part self i n }
    {
        Comb {
            first: self.first + i * self.apart,
            count: n,
            ..self
        }
    }
}

ghost use Rattle.cell_row.specs.Combs.{Within, sums};

// The sum of n values, each step further than the one before. It stays in a register.
pub fn sum_every<T: Addend>(values: &[T], at: usize, n: usize, step: usize) -> i64
    requires { at + n * step < length values.now + step }
    ensures { result ≡ wrapped (sum_z n (every (map T.value values.now) at step)) }
{
    let mut sum: i64 = 0;
    for m in 0..n {
        sum = sum.wrapping_add(values[at + m * step].wide());
    }
    sum
}

// The first four sums at once, each in a register.
fn sum_four<T: Addend>(work: &mut [i64], values: &[T], comb: Comb, dst: usize)
    requires { (Within comb (length values.now)) × (4 ≤ comb.count) × (dst + 4 ≤ length work.old) }
    ensures { work.new ≡ written work.old dst 4 (sums comb (map T.value values.now)) }
{
    let u = comb.apart;
    let v = u + u;
    let w = v + u;
    let mut a: i64 = 0;
    let mut b: i64 = 0;
    let mut c: i64 = 0;
    let mut d: i64 = 0;
    for m in 0..comb.values {
        let p = comb.first + m * comb.step;
        a = a.wrapping_add(values[p].wide());
        b = b.wrapping_add(values[p + u].wide());
        c = c.wrapping_add(values[p + v].wide());
        d = d.wrapping_add(values[p + w].wide());
    }
    work[dst] = a;
    work[dst + 1] = b;
    work[dst + 2] = c;
    work[dst + 3] = d;
}

// The sums one by one.
pub fn sum_each<T: Addend>(work: &mut [i64], values: &[T], comb: Comb, dst: usize)
    requires { (Within comb (length values.now)) × (dst + comb.count ≤ length work.old) }
    ensures { work.new ≡ written work.old dst comb.count (sums comb (map T.value values.now)) }
{
    for i in 0..comb.count {
        work[dst + i] = sum_every(values, comb.first + i * comb.apart, comb.values, comb.step);
    }
}

// The sums by fours, as far as they go. Inlined, a comb whose sums or values are neighbours has loops of its own, in vectors.
#[inline(always)]
pub fn sum_combs<T: Addend>(work: &mut [i64], values: &[T], comb: Comb, dst: usize)
    requires { (Within comb (length values.now)) × (dst + comb.count ≤ length work.old) }
    ensures { work.new ≡ written work.old dst comb.count (sums comb (map T.value values.now)) }
{
    for k in 0..comb.count / 4 {
        sum_four(work, values, comb.part(4 * k, 4), dst + 4 * k);
    }
    let rest = comb.count % 4;
    if 0 < rest {
        let done = comb.count - rest;
        sum_each(work, values, comb.part(done, rest), dst + done);
    }
}
