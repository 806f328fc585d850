// Commands, put at a place of a lent buffer.
ghost use Rattle.std.specs.Prelude.{◌≡◌, ◌∷◌, ◌+◌, ◌≤◌, length};
ghost use Rattle.std.proofs.lemmas.List.Edits.{sets};
ghost use Rattle.tape_spec.specs.Writing.{axis_command, point_command};
ghost use Rattle.practice_spec.specs.Draws.{point_by};

// The commands' bytes.
const AXIS: u8 = 0x41;

pub const BOARDS: u8 = 0x42;

const POINT: u8 = 0x56;

pub const END: u8 = 0x45;

// A command's byte, and its operand's.
pub fn put_command(out: &mut [u8], at: usize, command: u8, operand: &[u8])
    requires { at + 1 + length operand.now ≤ length out.old }
    ensures { out.new ≡ sets out.old at (command ∷ operand.now) }
{
    out[at] = command;
    let from = at + 1;
    out[from..from + operand.len()].copy_from_slice(operand);
}

// 41 and a length, of which its two low bytes count.
pub fn put_axis(out: &mut [u8], at: usize, d: u32)
    requires { at + 3 ≤ length out.old }
    ensures { out.new ≡ sets out.old at (axis_command d) }
{
    put_command(out, at, AXIS, &d.to_le_bytes()[..2]);
}

// 56 and the point that a draw makes, modulo 2^32, as its four bytes have it.
pub fn put_point(out: &mut [u8], at: usize, draw: u32)
    requires { at + 5 ≤ length out.old }
    ensures { out.new ≡ sets out.old at (point_command (point_by draw)) }
{
    let point = (draw % 2001).wrapping_sub(1000);
    put_command(out, at, POINT, &point.to_le_bytes());
}
