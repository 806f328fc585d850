// Reading a tape: a lent slice is filled with its points, once a scan has passed.
#![tactic(auto)]

ghost use Rattle.std.specs.Prelude.{◌≡◌, ◌+◌, ◌≤◌, ◌<◌, length, drop, replicate};
ghost use Rattle.std.proofs.lemmas.List.Edits.{sets};
ghost use Rattle.cube_spec.specs.Refusals.{refused_by};
ghost use Rattle.tape_spec.specs.Reading.{reading_refusal, filled_or, reading};
ghost use Rattle.tape_spec.specs.Decoding.{left, Passed, points_in};

use cube_spec::refusals::Refusal;
use tape_command::decode;
use tape_reading::{point_of, reading_of};
use tape_scan::scan;
use tape_spec::types::Command;

// Stores a point in n cells from one on; the first by itself, since most points stand once.
fn put_points(slice: &mut [i32], at: usize, n: usize, v: i32)
    requires { (0 < n) × (at + n ≤ length slice.old) }
    ensures { slice.new ≡ sets slice.old at (replicate n v) }
{
    slice[at] = v;
    for i in at + 1..at + n {
        slice[i] = v;
    }
}

// Stores the points from a position on, where the form is kept and no reading is refused.
fn store(tape: &[u8], start: usize, slice: &mut [i32])
    requires { Passed (left (drop start tape.now)) × (length (points_in (left (drop start tape.now))) ≤ length slice.old) }
    ensures { slice.new ≡ filled_or 0 (points_in (left (drop start tape.now))) slice.old }
{
    let mut at = start;
    let mut done: usize = 0;
    while let Some(command) = decode(tape, at) {
        match command {
            Command::Points(n, v, next) => {
                put_points(slice, done, n, v);
                done += n;
                at = next;
            }
            Command::Float(byte, bits, next) => {
                slice[done] = point_of(reading_of(byte, bits));
                done += 1;
                at = next;
            }
            _ => return,
        }
    }
}

// Puts the points of a tape whose scan passed at the start of a slice that has room for them.
pub fn fill_scanned(tape: &[u8], slice: &mut [i32])
    requires { reading_refusal tape.now (length slice.old) ≡ 0 }
    ensures { slice.new ≡ reading tape.now slice.old }
{
    let mut at: usize = 0;
    while let Some(command) = decode(tape, at) {
        match command {
            Command::Axis(_, next) => at = next,
            Command::Boards(_, next) => {
                store(tape, next, slice);
                return;
            }
            _ => return,
        }
    }
}

// Puts the points of a tape at the start of a slice, once its form, its readings and the number of points are judged.
#[tactic(auto, using(tape_spec::proofs::Refusing::reads))]
pub fn fill(tape: &[u8], slice: &mut [i32]) -> Result<(), Refusal>
    ensures refusal { refused_by result ≡ reading_refusal tape.now (length slice.old) }
    ensures points { slice.new ≡ reading tape.now slice.old }
{
    let found = scan(tape)?;
    if (slice.len() as u64) < found.points {
        return Err(Refusal::Memory);
    }
    fill_scanned(tape, slice);
    Ok(())
}
