ghost use Rattle.std.specs.Prelude.{◌≡◌, ◌≤◌, length};
ghost use Rattle.cube_spec.specs.Limits.{power_limit};
ghost use Rattle.cube_spec.specs.Ways.{sum_list};
ghost use Rattle.link_spec.specs.Stepping.{filled, next_of, next_or, went};

// Fills the exponents, from the last axis down, each up to its cap, with what there is.
pub fn fill(exponents: &mut [u8], caps: &[u8], amount: u8)
    requires { length exponents.old ≡ length caps.now }
    ensures { exponents.new ≡ filled caps.now amount }
{
    let mut left = amount;
    for i in (0..caps.len()).rev() {
        let k = caps[i].min(left);
        exponents[i] = k;
        left -= k;
    }
}

// Goes to the next division: the last axis that can take one more from those after it takes it, and these are filled anew. Or says that there is none.
pub fn next(exponents: &mut [u8], caps: &[u8]) -> bool
    requires { (length exponents.old ≡ length caps.now) × (sum_list exponents.old ≤ power_limit) }
    ensures { went result exponents.new ≡ next_or exponents.old (next_of caps.now exponents.old) }
{
    let mut rest: u8 = 0;
    for i in (0..caps.len()).rev() {
        let k = exponents[i];
        if 0 < rest && k < caps[i] {
            exponents[i] = k + 1;
            fill(&mut exponents[i + 1..], &caps[i + 1..], rest - 1);
            return true;
        }
        rest += k;
    }
    false
}
