// Words, numbers and fields.
ghost use Rattle.std.specs.Prelude.{◌≡◌, ◌++◌, ◌+◌, ◌*◌, ◌≤◌, length, map};
ghost use Rattle.std.proofs.lemmas.List.Edits.{sets};
ghost use Rattle.report_spec.specs.Text.{text};
ghost use Rattle.report_field.specs.Spread.{spread};

use crate::numbers::Spelled;
use itoa::Buffer;

// Puts bytes at a place.
fn put_bytes(out: &mut [u8], at: usize, bytes: &[u8]) -> usize
    requires { at + length bytes.now ≤ length out.old }
    ensures { (result ≡ at + length bytes.now) × (out.new ≡ sets out.old at bytes.now) }
{
    let end = at + bytes.len();
    out[at..end].copy_from_slice(bytes);
    end
}

// Puts a word at the start.
pub fn put_word(out: &mut [u8], word: &[u8]) -> usize
    requires { length word.now ≤ length out.old }
    ensures { (result ≡ length word.now) × (out.new ≡ sets out.old 0 word.now) }
{
    put_bytes(out, 0, word)
}

// Puts a number.
pub fn put_number<T: Spelled>(out: &mut [u8], at: usize, n: T) -> usize
    requires { at + length (T.spelling n) ≤ length out.old }
    ensures { (result ≡ at + length (T.spelling n)) × (out.new ≡ sets out.old at (T.spelling n)) }
{
    let mut buffer = Buffer::new();
    put_bytes(out, at, n.spell(&mut buffer).as_bytes())
}

// Puts a space and a number.
pub fn put_field<T: Spelled>(out: &mut [u8], at: usize, n: T) -> usize
    requires { at + 1 + length (T.spelling n) ≤ length out.old }
    ensures { (result ≡ at + 1 + length (T.spelling n)) × (out.new ≡ sets out.old at (text " " ++ T.spelling n)) }
{
    out[at] = b' ';
    put_number(out, at + 1, n)
}

// Puts a space and a number, with room for any: as many fields as there are numbers.
pub fn put_fields<T: Spelled>(out: &mut [u8], at: usize, numbers: &[T]) -> usize
    requires { at + 21 * length numbers.now ≤ length out.old }
    ensures { (result ≡ at + length (spread (map T.spelling numbers.now))) × (result ≤ at + 21 * length numbers.now)
        × (out.new ≡ sets out.old at (spread (map T.spelling numbers.now))) }
{
    let mut buffer = Buffer::new();
    let mut next = at;
    for &n in numbers {
        let text = n.spell(&mut buffer).as_bytes();
        out[next] = b' ';
        next = put_bytes(out, next + 1, text);
    }
    next
}
