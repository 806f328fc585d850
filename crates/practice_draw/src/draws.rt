// The draws, up to the points.
ghost use Rattle.std.specs.Prelude.{◌≡◌, ◌+◌, ◌%◌, min};
ghost use Rattle.practice_spec.specs.Draws.{round};
ghost use Rattle.practice_draw.specs.inner.Shapes.{shape_of};

use crate::types::Shape;
use plan_check::room_of;

// One round: the next state, which is the next draw.
pub fn next(x: u32) -> u32
    ensures { result ≡ round x }
{
    let a = x ^ (x << 13);
    let b = a ^ (a >> 17);
    b ^ (b << 5)
}

// p by its draw.
fn power_by(draw: u32, room: u32) -> u8
    ensures { result ≡ draw % (1 + min 3 room) }
{
    (draw % (1 + room.min(3))) as u8
}

// Everything but the points.
pub fn shape_of(seed: u32) -> Shape
    ensures { result ≡ shape_of seed }
{
    let mut state = next(seed);
    let axes = (1 + state % 4) as u8;
    let mut lengths = [0u32; 8];
    let mut points: u32 = 1;
    for d in 0..usize::from(axes) {
        state = next(state);
        let length = 1 + state % 9;
        lengths[d] = length;
        points *= length;
    }
    let draw = next(state);
    Shape {
        axes,
        lengths,
        p: power_by(draw, room_of(&lengths[..usize::from(axes)])),
        points,
        state: draw,
    }
}
