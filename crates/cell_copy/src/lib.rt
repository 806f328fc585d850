// Copies of cells that stand side by side to the places of a box, through strides: how boards' cells are gathered.
#![tactic(auto)]

ghost use Rattle.std.specs.Prelude.{◌≡◌, ◌+◌, ◌*◌, ◌≤◌, ◌<◌, length};
ghost use Rattle.cell_spec.specs.Rows.{from, placed, written};
ghost use Rattle.cell_spec.specs.Strides.{box_size, box_place, Boxed};

// Copies n cells to as many neighbours. By a loop, since the library's copy calls memmove, which C would have to bring, and costs more where cells are few.
fn put_row(res: &mut [i64], work: &[i64], src: usize, at: usize, n: usize)
    requires { (at + n ≤ length res.old) × (src + n ≤ length work.now) }
    ensures { res.new ≡ written res.old at n (from work.now src) }
{
    for i in 0..n {
        res[at + i] = work[src + i];
    }
}

// Copies n cells to places that stand step apart.
fn put_every(res: &mut [i64], work: &[i64], src: usize, at: usize, step: usize, n: usize)
    requires { (at + n * step < length res.old + step) × (src + n ≤ length work.now) }
    ensures { res.new ≡ placed res.old n (λ i. at + i * step) (from work.now src) }
{
    for i in 0..n {
        res[at + i * step] = work[src + i];
    }
}

// The same, by the faster loop where the places are neighbours.
fn put_line(res: &mut [i64], work: &[i64], src: usize, at: usize, step: usize, n: usize)
    requires { (at + n * step < length res.old + step) × (src + n ≤ length work.now) }
    ensures { res.new ≡ placed res.old n (λ i. at + i * step) (from work.now src) }
{
    if step == 1 {
        put_row(res, work, src, at, n);
    } else {
        put_every(res, work, src, at, step, n);
    }
}

// Copies cells to a box of two axes, d and the next one. Gives their number.
fn put_plane(
    res: &mut [i64],
    work: &[i64],
    extents: &[usize],
    strides: &[usize],
    d: usize,
    at: usize,
    src: usize,
) -> usize
    requires { Boxed (length work.now) (length res.old) extents.now strides.now 2 d at src }
    ensures { (result ≡ box_size extents.now 2 d) × (res.new ≡ placed res.old (box_size extents.now 2 d)
        (box_place extents.now strides.now 2 d at) (from work.now src)) }
{
    let e = extents[d];
    let t = strides[d];
    let f = extents[d + 1];
    let u = strides[d + 1];
    for row in 0..e {
        put_line(res, work, src + row * f, at + row * t, u, f);
    }
    e * f
}

// Copies the cells from src on to a box of the result, m axes from axis d on; a box of none is one cell. Gives their number.
pub fn put_box(
    res: &mut [i64],
    work: &[i64],
    extents: &[usize],
    strides: &[usize],
    m: usize,
    d: usize,
    at: usize,
    src: usize,
) -> usize
    requires { Boxed (length work.now) (length res.old) extents.now strides.now m d at src }
    ensures { (result ≡ box_size extents.now m d) × (res.new ≡ placed res.old (box_size extents.now m d)
        (box_place extents.now strides.now m d at) (from work.now src)) }
{
    if m == 0 {
        res[at] = work[src];
        return 1;
    }
    let e = extents[d];
    let t = strides[d];
    if m == 1 {
        put_line(res, work, src, at, t, e);
        return e;
    }
    if m == 2 {
        return put_plane(res, work, extents, strides, d, at, src);
    }
    let mut next = src;
    for x in 0..e {
        let first = at + x * t;
        let r = put_box(res, work, extents, strides, m - 1, d + 1, first, next);
        next += r;
    }
    next - src
}
