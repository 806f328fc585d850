ghost use Rattle.std.specs.Prelude.{◌≡◌, ◌*◌, ◌+◌, ◌≤◌, ◌<◌, length, get_or};
ghost use Rattle.cube_spec.specs.Limits.{axis_limit, power_limit, padded};
ghost use Rattle.cube_spec.specs.Boxes.{pick, table, product};
ghost use Rattle.cube_spec.specs.Tree.{sent};
ghost use Rattle.link_spec.specs.Costs.{fare};
ghost use Rattle.link_spec.specs.Search.{link_limit};
ghost use Rattle.link_spec.specs.Shares.{factor, share, shares_cost, fare_limit, Priceable, Rated};
ghost use Rattle.plan_spec.specs.Choosing.{Bounded};

// What a cell costs over an axis: 2^k - 1 values, each at the axis's link weight.
fn fare_of(k: u8, link: u32) -> u64
    requires { (k ≤ power_limit) × (link ≤ link_limit) }
    ensures { (result ≡ sent k * link) × (result ≤ fare_limit) }
{
    ((1u64 << k) - 1) * u64::from(link)
}

// That of each axis.
fn fares(exponents: &[u8], links: &[u32]) -> [u64; 8]
    requires { (length links.now ≡ length exponents.now) × Rated exponents.now links.now (length exponents.now) }
    ensures { result ≡ padded (table (length exponents.now) (fare links.now exponents.now)) }
{
    let mut out = [0u64; 8];
    for i in 0..exponents.len() {
        out[i] = fare_of(exponents[i], links[i]);
    }
    out
}

// What an axis multiplies the cells by: its length where it is kept, else one more, kept or summed.
fn factor(length: u32, kept: bool) -> u64
    ensures { result ≡ pick kept length (length + 1) }
{
    u64::from(length) + u64::from(!kept)
}

// The cells of the choices whose cheapest axis is i, over the axes before i: each is kept where its fare is no higher.
fn share_before(lens: &[u32], fares: &[u64; 8], i: usize) -> u64
    requires { Bounded (λ d. get_or lens.now d 0) i × (i < axis_limit) × (i < length lens.now) }
    ensures { result ≡ product (factor (λ d. get_or lens.now d 0) (λ d. get_or fares.now d 0) i) i 0 }
{
    let mut cells: u64 = 1;
    for j in 0..i {
        cells *= factor(lens[j], fares[j] <= fares[i]);
    }
    cells
}

// And over all axes: each after i is kept where its fare is lower.
fn share_of(lens: &[u32], fares: &[u64; 8], i: usize) -> u64
    requires { Bounded (λ d. get_or lens.now d 0) (length lens.now) × (i < length lens.now) }
    ensures { result ≡ share (λ d. get_or lens.now d 0) (λ d. get_or fares.now d 0) (length lens.now) i }
{
    let mut cells = share_before(lens, fares, i);
    for j in i + 1..lens.len() {
        cells *= factor(lens[j], fares[j] < fares[i]);
    }
    cells
}

// The cost of a division with these fares of its axes, the cheapest parent for every choice. An axis at the fare 0 costs nothing.
fn shares_cost(lens: &[u32], fares: &[u64; 8]) -> u64
    requires { Priceable lens.now fares.now (length lens.now) }
    ensures { result ≡ shares_cost (λ d. get_or lens.now d 0) (λ d. get_or fares.now d 0) (length lens.now) }
{
    let mut sum: u64 = 0;
    for i in 0..lens.len() {
        let fare = fares[i];
        if 0 < fare {
            sum += fare * share_of(lens, fares, i);
        }
    }
    sum
}

// The cost of a division.
pub fn division_cost(lens: &[u32], links: &[u32], exponents: &[u8]) -> u64
    requires { (length links.now ≡ length lens.now) × (length exponents.now ≡ length lens.now)
        × Rated exponents.now links.now (length lens.now) × Bounded (λ d. get_or lens.now d 0) (length lens.now) }
    ensures { result ≡ shares_cost (λ d. get_or lens.now d 0) (fare links.now exponents.now) (length lens.now) }
{
    shares_cost(lens, &fares(exponents, links))
}
