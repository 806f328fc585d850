// The seed line.
ghost use Rattle.std.specs.Prelude.{◌≡◌};
ghost use Rattle.cube_spec.specs.Refusals.{reply_of};
ghost use Rattle.practice_spec.specs.inner.Judged.{seeded};

use cube_spec::refusals::Refusal;

// The digits of a seed, at most; and with the line feed.
const SEED_DIGITS: usize = 10;

pub const SEED_LINE: usize = 11;

// The largest seed.
const LAST_SEED: u64 = 4_294_967_295;

// The seed that the input opens with.
pub fn seed_of(input: &[u8]) -> Result<u32, Refusal>
    ensures { reply_of result ≡ seeded input.now }
{
    let mut value: u64 = 0;
    for (i, &b) in input.iter().enumerate() {
        if b == b'\n' {
            if value == 0 || LAST_SEED < value {
                return Err(Refusal::Seed);
            }
            return Ok(value as u32);
        }
        if !b.is_ascii_digit() || i == SEED_DIGITS {
            return Err(Refusal::Seed);
        }
        value = 10 * value + u64::from(b - b'0');
    }
    Err(Refusal::Seed)
}
