// The scan of a tape: in one pass its form and its readings are judged, and what it holds is counted.
#![tactic(auto)]

ghost use Rattle.std.specs.Prelude.{◌≡◌, ◌≤◌, eqb, length, drop, set};
ghost use Rattle.cube_spec.specs.Boxes.{pick};
ghost use Rattle.cube_spec.specs.Limits.{tape_limit};
ghost use Rattle.cube_spec.specs.Refusals.{refused_by, reply_of};
ghost use Rattle.tape_reading.specs.Readings.{reading_of, centimetres_of, refusal_in};
ghost use Rattle.tape_spec.specs.Tapes.{commands};
ghost use Rattle.tape_spec.specs.Reading.{scanning};
ghost use Rattle.tape_spec.specs.Decoding.{counted};

use cube_spec::refusals::Refusal;
use tape_command::decode;
use tape_reading::check_reading;
use tape_spec::types::{Command, Count, Scan};

// The first refusal: the one that there was, or else the reading's.
fn sooner(judged: Result<(), Refusal>, command: u8, bits: u32) -> Result<(), Refusal>
    ensures { refused_by result
        ≡ pick (eqb (refused_by judged) 0) (refusal_in (centimetres_of (reading_of command bits))) (refused_by judged) }
{
    judged?;
    check_reading(command, bits)
}

// Counts the points from a position to the end of a tape, and its commands on from those before it; or gives the refusal of its form, or else of the
// first reading that is refused.
fn count(tape: &[u8], start: usize, before: u64) -> Result<Count, Refusal>
    requires { (length tape.now ≤ tape_limit) × (start ≤ length tape.now) × (before ≤ start) }
    ensures { reply_of result ≡ counted 0 before 0 (commands (drop start tape.now)) }
{
    let mut points: u64 = 0;
    let mut read = before;
    let mut judged = Ok(());
    let mut at = start;
    // A command says where the next begins, so the position is no range's.
    while let Some(command) = decode(tape, at) {
        read += 1;
        match command {
            Command::Points(n, _, next) => {
                points += n as u64;
                at = next;
            }
            Command::Float(byte, bits, next) => {
                points += 1;
                judged = sooner(judged, byte, bits);
                at = next;
            }
            Command::End(next) => {
                if next < tape.len() {
                    return Err(Refusal::Form);
                }
                judged?;
                return Ok(Count {
                    points,
                    commands: read,
                });
            }
            Command::Axis(..) | Command::Boards(..) => return Err(Refusal::Form),
        }
    }
    Err(Refusal::Form)
}

// Judges a tape's form and readings and counts what it holds, in one pass: each command is decoded once, and counted there.
pub fn scan(tape: &[u8]) -> Result<Scan, Refusal>
    ensures { reply_of result ≡ scanning tape.now }
{
    if 65536 < tape.len() {
        return Err(Refusal::LongTape);
    }
    let mut lengths = [0; 8];
    let mut axes: usize = 0;
    let mut read: u64 = 0;
    let mut at: usize = 0;
    while let Some(command) = decode(tape, at) {
        read += 1;
        match command {
            Command::Axis(d, next) => {
                if axes < 8 {
                    lengths[axes] = u32::from(d);
                }
                axes += 1;
                at = next;
            }
            Command::Boards(p, next) => {
                let Count { points, commands } = count(tape, next, read)?;
                return Ok(Scan {
                    axes: axes as u32,
                    lengths,
                    p,
                    points,
                    commands,
                });
            }
            _ => return Err(Refusal::Form),
        }
    }
    Err(Refusal::Form)
}
