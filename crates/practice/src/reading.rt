// The seed line, read.
ghost use Rattle.std.specs.Prelude.{◌≡◌, ◌<◌, length};
ghost use Rattle.practice.specs.Openings.{opening_after, space_after, Stops, Keeps};

use crate::types::Opening;

// After a read of one byte: the byte at the next place, or nothing where the read gave none, and then the input ended.
fn put_byte(space: &mut [u8], used: usize, got: usize, b: u8) -> Opening
    requires { used < length space.old }
    ensures { (result ≡ opening_after used got) × (space.new ≡ space_after space.old used got b) }
{
    if got == 0 {
        return Opening { used, ended: true };
    }
    space[used] = b;
    Opening {
        used: used + 1,
        ended: false,
    }
}

// Reads byte by byte, up to the first that is no digit: what follows the line feed is left unread, and nobody has to end the input.
pub fn read_line(space: &mut [u8]) -> Opening
    ensures { Stops space.new result × Keeps space.old space.new result.used }
{
    for used in 0..space.len() {
        let mut byte = [0u8; 1];
        let got = io::read_full(0, &mut byte);
        let b = byte[0];
        let opening = put_byte(space, used, got, b);
        if opening.ended || !b.is_ascii_digit() {
            return opening;
        }
    }
    Opening {
        used: space.len(),
        ended: false,
    }
}
