// One point: as sums and counts take it, and as tiles do.
ghost use Rattle.std.specs.Prelude.{◌≡◌, ◌≤◌, ◌<◌};
ghost use Rattle.cube_spec.specs.Shots.{value_of, shot_of};
ghost use Rattle.cell_pair.specs.Tiles.{raised_of};

// What a point adds to a sum.
pub fn value(x: i32) -> i64
    ensures { result ≡ value_of x }
{
    if x == i32::MIN { 0 } else { i64::from(x) }
}

// What it adds to a count.
pub fn shot(x: i32) -> i64
    ensures { result ≡ shot_of x }
{
    i64::from(x != i32::MIN)
}

// The point raised by 2^31. Compiled, it is one instruction.
pub fn raised(x: i32) -> u32
    ensures { result ≡ raised_of x }
{
    x.cast_unsigned().wrapping_add(1 << 31)
}

// 1 for a raised point that was shot.
pub fn counted(b: u32) -> u32
    ensures { (result ≤ 1) × (b ≡ 0 → result ≡ 0) × (0 < b → result ≡ 1) }
{
    u32::from(0 < b)
}
