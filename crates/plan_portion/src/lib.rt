// The portion rule, on numbers: an axis of some length is cut into 2^k portions. No plan is passed, since the loops over axes ask it in every turn.
#![tactic(auto)]

ghost use Rattle.std.specs.Prelude.{◌≡◌, suc, ◌-◌, ◌/◌, ◌%◌, ◌^◌, ◌≤◌, ◌<◌};
ghost use Rattle.cube_spec.specs.Boxes.{pick};
ghost use Rattle.cube_spec.specs.Limits.{power_limit};
ghost use Rattle.cube_spec.specs.Portions.{portion_start};

// How many positions the shorter portions have. The divisor is a power of two, so that neither this nor the next takes a division.
fn least_of(length: u32, k: u8) -> u64
    requires { k ≤ power_limit }
    ensures { (result ≡ length / 2 ^ k) × (result ≤ length) }
{
    u64::from(length) / (1u64 << k)
}

// How many portions have one position more: the first ones.
fn longer_of(length: u32, k: u8) -> u64
    requires { k ≤ power_limit }
    ensures { result ≡ length % 2 ^ k }
{
    u64::from(length) % (1u64 << k)
}

// Where portion l starts: after l portions, with one position more for each longer one among them. The last one ends where the next would start.
pub fn portion_start(length: u32, k: u8, l: u64) -> u64
    requires { (k ≤ power_limit) × (l ≤ 1024) }
    ensures { result ≡ portion_start length (2 ^ k) l }
{
    let least = least_of(length, k);
    let longer = longer_of(length, k);
    l * least + l.min(longer)
}

// How many positions portion l has.
pub fn portion_of(length: u32, k: u8, l: u64) -> u64
    requires { (k ≤ power_limit) × (l < 1024) }
    ensures { result ≡ portion_start length (2 ^ k) (suc l) - portion_start length (2 ^ k) l }
{
    let least = least_of(length, k);
    if l < longer_of(length, k) {
        return least + 1;
    }
    least
}

// The same where the axis is kept, and 1 where it is summed out.
pub fn kept_portion(kept: bool, length: u32, k: u8, l: u64) -> u64
    requires { (k ≤ power_limit) × (l < 1024) }
    ensures { result ≡ pick kept (portion_start length (2 ^ k) (suc l) - portion_start length (2 ^ k) l) 1 }
{
    if kept {
        return portion_of(length, k, l);
    }
    1
}
