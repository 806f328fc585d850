// Readings: the point that each gives, in whole centimetres, from the float's bits. No float is added, multiplied or rounded here.
#![tactic(auto)]

ghost use Rattle.std.specs.Prelude.{◌≡◌, ◌*◌, ◌^◌, ◌<◌, ◌≤◌};
ghost use Rattle.cube_spec.specs.Refusals.{refused_by};
ghost use Rattle.tape_reading.specs.Nearest as Nearest;
ghost use Rattle.tape_reading.specs.Patterns.{parts};
ghost use Rattle.tape_reading.specs.Readings.{signed32, Floating, reading_of, in_centimetres, centimetres_of, refusal_in, value_in, from_bits};
ghost use Rattle.tape_reading.specs.inner.Taken.{Scale, Refuses};

use cube_spec::refusals::Refusal;
use types::Reading;

pub mod types;

// Centimetres in a metre and in a kilometre.
const METRE: u64 = 100;

const KILOMETRE: u64 = 100000;

// A float's bits without their sign are its size's: larger bits are a larger number, up to those of infinity.
const SIGN: u32 = 0x80000000;

const INFINITE: u32 = 0x7F800000;

// The largest sizes that are taken.
const LAST_METRES: u32 = 0x4BA3D70A;

const LAST_KILOMETRES: u32 = 0x46A7C5AC;

// ---- a reading from the operand of its command

// The signed number whose bits are n.
#[tactic(auto, unfolding(crate::specs::Readings::signed32))]
pub fn signed(n: u32) -> i32
    ensures { result ≡ signed32 n }
{
    n.cast_signed()
}

// The reading of a float's command that is not refused: its bits are a number's.
#[tactic(auto, using(crate::proofs::Patterns::number_bits), unfolding(crate::specs::Readings::reading_of, crate::specs::Readings::centimetres_of))]
pub fn reading_of(command: u8, n: u32) -> Reading
    requires { Floating command × (refusal_in (centimetres_of (reading_of command n)) ≡ 0) }
    ensures { result ≡ reading_of command n }
{
    if command == 0x4D {
        return Reading::Metres(f32::from_bits(n));
    }
    Reading::Kilometres(f32::from_bits(n))
}

// ---- refusals, by the size alone: where a number is too far, all larger ones are

// A float judged by its bits.
fn check_size(n: u32, last: u32) -> Result<(), Refusal>
    ensures { Refuses (refused_by result) last (λ scale. from_bits scale n) }
{
    let size = n % SIGN;
    if size <= last {
        return Ok(());
    }
    if size < INFINITE {
        return Err(Refusal::TooFar);
    }
    Err(Refusal::NotANumber)
}

// A command's reading judged: whole centimetres are never refused. No float is made for it. The command stays a byte and no enum of units:
// docs/PROMISES.md names this function, and it judges every byte.
#[tactic(auto, using(crate::proofs::Sizes::judges), unfolding(crate::specs::Readings::reading_of, crate::specs::Readings::centimetres_of))]
pub fn check_reading(command: u8, n: u32) -> Result<(), Refusal>
    ensures { refused_by result ≡ refusal_in (centimetres_of (reading_of command n)) }
{
    match command {
        0x4D => check_size(n, LAST_METRES),
        0x4B => check_size(n, LAST_KILOMETRES),
        _ => Ok(()),
    }
}

// ---- whole centimetres

// The whole number nearest to n / 2^j, halves to the even one.
#[tactic(auto, using(crate::proofs::Bits::rounds))]
fn rounded(n: u64, j: u32) -> u64
    requires { (1 ≤ j) × (j ≤ 62) × (n < 2 ^ 62) }
    ensures { result ≡ Nearest.nearest n (2 ^ j) }
{
    let half = 1u64 << (j - 1);
    let odd = (n >> j) % 2;
    (n + (half - 1) + odd) >> j
}

// The whole centimetres of a size that is taken: the field stands above 23 digits. Below field 91 all are under half a centimetre, so the others
// have their leading one, 2^23. The number is mantissa · 2^(field − 150); with eight times the mantissa, the shift is 2 to 62.
#[tactic(auto, using(crate::proofs::Bits::size_small, crate::proofs::Bits::size_shifted))]
fn whole(size: u32, scale: u64) -> u64
    requires { (size ≤ 0x4BA3D70A) × (scale ≤ 100000) }
    ensures { result ≡ Nearest.nearest (parts size * scale) (2 ^ 149) }
{
    let field = size / 8388608;
    if field < 91 {
        return 0;
    }
    let mantissa = 8388608 + u64::from(size % 8388608);
    rounded(8 * mantissa * scale, 153 - field)
}

// Whole centimetres with their sign.
#[tactic(auto, using(crate::proofs::Signs::negative_is, crate::proofs::Signs::positive_is))]
fn with_sign(negative: bool, w: u64) -> i32
    requires { w ≤ 2147483647 }
    ensures { result ≡ Nearest.signed negative w }
{
    let v = w as i32;
    if negative { -v } else { v }
}

// The point of a float's bits.
#[tactic(auto, using(crate::proofs::Sizes::passed), unfolding(crate::specs::Patterns::negative))]
fn bits_point(n: u32, scale: u64) -> i32
    requires { Scale scale × (refusal_in (from_bits scale n) ≡ 0) }
    ensures { result ≡ value_in (from_bits scale n) }
{
    with_sign(SIGN <= n, whole(n % SIGN, scale))
}

// The point of a float.
#[tactic(auto, using(crate::proofs::Patterns::number, crate::proofs::Patterns::by_bits))]
fn float_point(x: f32, scale: u64) -> i32
    requires { Scale scale × (refusal_in (in_centimetres scale x) ≡ 0) }
    ensures { result ≡ value_in (in_centimetres scale x) }
{
    bits_point(x.to_bits(), scale)
}

// The point of a reading that is not refused.
#[tactic(auto, unfolding(crate::specs::Readings::centimetres_of))]
pub fn point_of(reading: Reading) -> i32
    requires { refusal_in (centimetres_of reading) ≡ 0 }
    ensures { result ≡ value_in (centimetres_of reading) }
{
    match reading {
        Reading::Centimetres(v) => v,
        Reading::Metres(x) => float_point(x, METRE),
        Reading::Kilometres(x) => float_point(x, KILOMETRE),
    }
}
