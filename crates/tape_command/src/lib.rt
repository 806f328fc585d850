// Decoding, in one place: the command at a position of a tape. A command's operands are read only where the tape has them all.
#![tactic(auto)]

ghost use Rattle.std.specs.Prelude.{◌≡◌, ◌<◌, length, get_or};
ghost use Rattle.tape_reading.specs.Readings.{Floating};
ghost use Rattle.tape_spec.specs.Decoding.{meant, Known, decoding};

use tape_operand::{pair, quad};
use tape_reading::signed;
use tape_spec::types::Command;

// 41 at a position.
#[tactic(auto, using(tape_spec::proofs::Decoding::axis_cut, tape_spec::proofs::Decoding::axis_told))]
fn axis(tape: &[u8], at: usize) -> Option<Command>
    requires { (at < length tape.now) × (get_or tape.now at 0 ≡ 0x41) }
    ensures { (meant result ≡ decoding tape.now at) × Known result }
{
    let next = at + 3;
    if tape.len() < next {
        return None;
    }
    Some(Command::Axis(pair(tape, at + 1), next))
}

// 42 at a position.
#[tactic(auto, using(tape_spec::proofs::Decoding::boards_cut, tape_spec::proofs::Decoding::boards_told))]
fn boards(tape: &[u8], at: usize) -> Option<Command>
    requires { (at < length tape.now) × (get_or tape.now at 0 ≡ 0x42) }
    ensures { (meant result ≡ decoding tape.now at) × Known result }
{
    let next = at + 2;
    if tape.len() < next {
        return None;
    }
    Some(Command::Boards(tape[at + 1], next))
}

// 4B and 4D at a position.
#[tactic(auto, using(tape_spec::proofs::Decoding::single_cut, tape_spec::proofs::Decoding::single_told, tape_spec::proofs::Decoding::is_float))]
fn float(tape: &[u8], at: usize, command: u8) -> Option<Command>
    requires { (at < length tape.now) × (get_or tape.now at 0 ≡ command) × Floating command }
    ensures { (meant result ≡ decoding tape.now at) × Known result }
{
    let next = at + 5;
    if tape.len() < next {
        return None;
    }
    Some(Command::Float(command, quad(tape, at + 1), next))
}

// 56 at a position.
#[tactic(auto, using(tape_spec::proofs::Decoding::point_cut, tape_spec::proofs::Decoding::point_told), unfolding(tape_reading::specs::Readings::reading_of))]
fn point(tape: &[u8], at: usize) -> Option<Command>
    requires { (at < length tape.now) × (get_or tape.now at 0 ≡ 0x56) }
    ensures { (meant result ≡ decoding tape.now at) × Known result }
{
    let next = at + 5;
    if tape.len() < next {
        return None;
    }
    Some(Command::Points(1, signed(quad(tape, at + 1)), next))
}

// 52 at a position.
#[tactic(auto, using(tape_spec::proofs::Decoding::repeats), unfolding(tape_reading::specs::Readings::reading_of))]
fn repeated(tape: &[u8], at: usize) -> Option<Command>
    requires { (at < length tape.now) × (get_or tape.now at 0 ≡ 0x52) }
    ensures { (meant result ≡ decoding tape.now at) × Known result }
{
    let next = at + 7;
    if tape.len() < next {
        return None;
    }
    let n = pair(tape, at + 1);
    if n == 0 {
        return None;
    }
    Some(Command::Points(usize::from(n), signed(quad(tape, at + 3)), next))
}

// A command that is neither a 56 nor a 52. 4B and 4D, the odd bytes from 4B to 4D, are told by a range and not by a case each, so that the compiler
// keeps one plain test each for 56 and 52 (DECISIONS 89).
#[tactic(auto, using(tape_spec::proofs::Decoding::others))]
fn other(tape: &[u8], at: usize, command: u8) -> Option<Command>
    requires { (at < length tape.now) × (get_or tape.now at 0 ≡ command) × (command ≡ 0x56 → ⊥) × (command ≡ 0x52 → ⊥) }
    ensures { (meant result ≡ decoding tape.now at) × Known result }
{
    if 0x4B <= command {
        if 0x4D < command {
            return None;
        }
        if command % 2 == 0 {
            return None;
        }
        return float(tape, at, command);
    }
    match command {
        0x41 => axis(tape, at),
        0x42 => boards(tape, at),
        0x45 => Some(Command::End(at + 1)),
        _ => None,
    }
}

// The command at a position. Its byte is read once, here, and handed on.
#[tactic(auto, using(tape_spec::proofs::Decoding::past_told))]
pub fn decode(tape: &[u8], at: usize) -> Option<Command>
    ensures { (meant result ≡ decoding tape.now at) × Known result }
{
    if tape.len() <= at {
        return None;
    }
    let command = tape[at];
    match command {
        0x56 => point(tape, at),
        0x52 => repeated(tape, at),
        _ => other(tape, at, command),
    }
}
