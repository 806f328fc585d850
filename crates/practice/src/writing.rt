// The tape, or the refusal line, written.
ghost use Rattle.std.specs.Prelude.{◌≡◌, ◌≤◌, ◌<◌, length, take};
ghost use Rattle.std.proofs.lemmas.List.Edits.{sets};
ghost use Rattle.practice_spec.specs.Seeds.{digit_limit, practised};
ghost use Rattle.practice_spec.specs.inner.Judged.{longest_tape};
ghost use Rattle.practice.specs.Openings.{Stops, PrintsAfter};

use crate::types::Opening;
use practice_draw::printing::practise;

// Writes what is printed for an input, which the buffer has at its start; gives whether the system took all of it.
// The input is lent for the contract alone.
fn write(input: &[u8], out: &[u8], used: usize) -> bool
    requires { (used ≤ length out.now) × (take used out.now ≡ practised input.now) }
{
    io::write_all(1, &out[..used])
}

// From the bytes read to the bytes written; gives how many there are.
fn print_for(input: &[u8], out: &mut [u8]) -> usize
    requires { longest_tape ≤ length out.old }
    ensures { (result ≡ length (practised input.now)) × (out.new ≡ sets out.old 0 (practised input.now)) }
{
    let used = practise(input, out);
    let _whole = write(input, out, used);
    used
}

// From what was read into a space to what is printed. The space has room for more bytes than a seed has digits: of an input that
// goes on, the bytes that were not read do not matter.
pub fn print(space: &[u8], opening: Opening, out: &mut [u8]) -> usize
    requires { (digit_limit < length space.now) × Stops space.now opening × (longest_tape ≤ length out.old) }
    ensures { PrintsAfter space.now opening out.old result out.new }
{
    print_for(&space[..opening.used], out)
}
