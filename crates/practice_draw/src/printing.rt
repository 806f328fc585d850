// What the generator prints.
ghost use Rattle.std.specs.Prelude.{◌≡◌, ◌≤◌, length};
ghost use Rattle.std.proofs.lemmas.List.Edits.{sets};
ghost use Rattle.practice_spec.specs.Seeds.{practised};
ghost use Rattle.practice_spec.specs.inner.Judged.{longest_tape};

use crate::seeds::seed_of;
use crate::tapes::put_tape;
use report_line::reports::refused_line;

// The bytes printed for the bytes read, at the start of a lent buffer; gives how many there are.
pub fn practise(input: &[u8], out: &mut [u8]) -> usize
    requires { longest_tape ≤ length out.old }
    ensures { (result ≡ length (practised input.now)) × (result ≤ length out.new)
        × (out.new ≡ sets out.old 0 (practised input.now)) }
{
    match seed_of(input) {
        Ok(seed) => put_tape(out, seed),
        Err(refusal) => refused_line(out, refusal.number()),
    }
}
