// Whole lines, each at the start of a lent buffer; each gives its length.
ghost use Rattle.std.specs.Prelude.{◌≡◌, ◌∷◌, ◌++◌, ◌+◌, ◌*◌, ◌≤◌, length};
ghost use Rattle.std.proofs.lemmas.List.Edits.{sets};
ghost use Rattle.report_spec.specs.Text.{text, decimal};
ghost use Rattle.report_spec.specs.Printed.{fields, numbers, signeds};

use report_field::fields::{put_field, put_fields, put_word};

// A word and numbers: plan, dim, end and refused lines.
pub fn put_line(out: &mut [u8], word: &[u8], values: &[u64]) -> usize
    requires { length word.now + 21 * length values.now + 1 ≤ length out.old }
    ensures { (result ≡ length (word.now ++ fields (numbers values.now))) × (result ≤ length out.new)
        × (out.new ≡ sets out.old 0 (word.now ++ fields (numbers values.now))) }
{
    let first = put_word(out, word);
    let end = put_fields(out, first, values);
    out[end] = b'\n';
    end + 1
}

// A choice's mask and cells.
pub fn put_group(out: &mut [u8], mask: u8, cells: &[i64]) -> usize
    requires { 5 + 21 + 21 * length cells.now + 1 ≤ length out.old }
    ensures { (result ≡ length (text "group" ++ fields (decimal mask ∷ signeds cells.now))) × (result ≤ length out.new)
        × (out.new ≡ sets out.old 0 (text "group" ++ fields (decimal mask ∷ signeds cells.now))) }
{
    let first = put_word(out, b"group");
    let next = put_field(out, first, u64::from(mask));
    let end = put_fields(out, next, cells);
    out[end] = b'\n';
    end + 1
}
