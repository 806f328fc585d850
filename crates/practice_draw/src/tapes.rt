// The tape of a seed, at the start of a lent buffer.
ghost use Rattle.std.specs.Prelude.{◌≡◌, ◌+◌, ◌*◌, ◌≤◌, ◌++◌, length, take};
ghost use Rattle.std.proofs.lemmas.List.Edits.{sets};
ghost use Rattle.tape_spec.specs.Writing.{axis_command, boards_command, point_command, each, written};
ghost use Rattle.practice_spec.specs.Draws.{drawn, point_by, practice, tape_of};
ghost use Rattle.practice_spec.specs.inner.Judged.{longest_tape};

use crate::commands::{BOARDS, END, put_axis, put_command, put_point};
use crate::draws::{next, shape_of};
use crate::types::Shape;

// A 41 for each length; gives the place after them.
fn put_axes(out: &mut [u8], lengths: &[u32]) -> usize
    requires { 3 * length lengths.now ≤ length out.old }
    ensures { (result ≡ 3 * length lengths.now) × (out.new ≡ sets out.old 0 (each axis_command lengths.now)) }
{
    for (d, &length) in lengths.iter().enumerate() {
        put_axis(out, 3 * d, length);
    }
    3 * lengths.len()
}

// A 56 for each of so many draws; gives the place after them.
fn put_points(out: &mut [u8], from: usize, count: u32, start: u32) -> usize
    requires { from + 5 * count ≤ length out.old }
    ensures { (result ≡ from + 5 * count) × (out.new ≡ sets out.old from (each point_command (drawn point_by count start))) }
{
    let mut state = start;
    let mut at = from;
    for _i in 0..count {
        state = next(state);
        put_point(out, at, state);
        at += 5;
    }
    at
}

// The 41s and the 42; gives the place after them.
fn put_head(out: &mut [u8], lengths: &[u32], p: u8) -> usize
    requires { 3 * length lengths.now + 2 ≤ length out.old }
    ensures { (result ≡ 3 * length lengths.now + 2) × (out.new ≡ sets out.old 0 (each axis_command lengths.now ++ boards_command p)) }
{
    let at = put_axes(out, lengths);
    put_command(out, at, BOARDS, &[p]);
    at + 2
}

// The tape of a shape; gives its length.
fn put_shape(out: &mut [u8], shape: Shape) -> usize
    requires { (shape.axes ≤ length shape.lengths) × (3 * shape.axes + 5 * shape.points + 3 ≤ length out.old) }
    ensures { (result ≡ 3 * shape.axes + 5 * shape.points + 3)
        × (out.new ≡ sets out.old 0 (written (take shape.axes shape.lengths) shape.p (drawn point_by shape.points shape.state))) }
{
    let from = put_head(out, &shape.lengths[..usize::from(shape.axes)], shape.p);
    let end = put_points(out, from, shape.points, shape.state);
    out[end] = END;
    end + 1
}

// The longest tape: four axes of 9, and their 6,561 points.
pub const LONGEST_TAPE: usize = 32820;

// The tape of a seed; gives its length.
pub fn put_tape(out: &mut [u8], seed: u32) -> usize
    requires { longest_tape ≤ length out.old }
    ensures { (result ≡ length (tape_of (practice seed))) × (result ≤ length out.new)
        × (out.new ≡ sets out.old 0 (tape_of (practice seed))) }
{
    put_shape(out, shape_of(seed))
}
