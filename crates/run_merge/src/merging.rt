// A box with fewer and longer axes: neighbouring axes that stand as one are merged, and axes of extent 1 left out, so that the loops over its cells have long rows.
ghost use Rattle.cell_spec.specs.Strides.{Mergeable, Merged, FirstAxis, FirstMerged};

// Leaves the first axis out or merges it into the next one, where the box stays the same; gives the first axis that is left.
fn merge_first(extents: &mut [usize], strides: &[usize], n: usize, d: usize) -> usize
    requires { FirstAxis extents.old strides.now n d }
    ensures { FirstMerged extents.old strides.now extents.new n d result }
{
    let e = extents[d];
    if e == 1 {
        return d + 1;
    }
    if d + 1 == n {
        return d;
    }
    let f = extents[d + 1];
    if strides[d] != f * strides[d + 1] {
        return d;
    }
    extents[d + 1] = e * f;
    d + 1
}

// Merges neighbouring axes that stand as one and leaves out axes of extent 1; gives the first axis of the box that is left, which ends where it ended.
pub fn merge(extents: &mut [usize], strides: &mut [usize], n: usize) -> usize
    requires { Mergeable extents.old strides.old n }
    ensures { Merged extents.old strides.old extents.new strides.new n result }
{
    let mut k = n;
    for d in (0..n).rev() {
        k -= 1;
        // Axis d goes before the merged ones; d <= k, so no axis still to come is overwritten.
        extents[k] = extents[d];
        strides[k] = strides[d];
        k = merge_first(extents, strides, n, k);
    }
    k
}
