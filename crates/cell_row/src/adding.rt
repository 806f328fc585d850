// Rows of cells held side by side: cleared and added.
ghost use Rattle.std.specs.Prelude.{◌≡◌, ◌+◌, ◌<◌, ◌≤◌, length, map};
ghost use Rattle.cell_spec.specs.Rows.{from, written, zeros, added_to, Apart};

use crate::addend::Addend;

// Clears n cells.
pub fn clear(work: &mut [i64], at: usize, n: usize)
    requires { at + n ≤ length work.old }
    ensures { work.new ≡ written work.old at n zeros }
{
    work[at..at + n].fill(0);
}

// Adds n values that are neighbours to n cells.
pub fn add_values<T: Addend>(work: &mut [i64], values: &[T], src: usize, dst: usize, n: usize)
    requires { (src + n ≤ length values.now) × (dst + n ≤ length work.old) }
    ensures { work.new ≡ written work.old dst n (added_to work.old dst (from (map T.value values.now) src)) }
{
    for i in 0..n {
        work[dst + i] = work[dst + i].wrapping_add(values[src + i].wide());
    }
}

// Adds n cells to n others of the same slice.
pub fn add_row(work: &mut [i64], src: usize, dst: usize, n: usize)
    requires { (src + n ≤ length work.old) × (dst + n ≤ length work.old) × Apart src dst n }
    ensures { work.new ≡ written work.old dst n (added_to work.old dst (from work.old src)) }
{
    if src < dst {
        let (front, back) = work.split_at_mut(dst);
        add_values(back, &*front, src, 0, n);
    } else {
        let (front, back) = work.split_at_mut(src);
        add_values(front, &*back, 0, dst, n);
    }
}
