// The operands of a command: numbers of two and of four bytes, the lowest byte first. Each is one call of the library at its own type, so a generic
// function would have nothing to hold.
#![tactic(auto)]

ghost use Rattle.std.specs.Prelude.{◌≡◌, ◌+◌, ◌≤◌, length, take, drop};
ghost use Rattle.cube_spec.specs.Bytes.{little};

// An operand of two bytes.
#[tactic(auto, using(tape_spec::proofs::Operands::two))]
pub fn pair(tape: &[u8], at: usize) -> u16
    requires { at + 2 ≤ length tape.now }
    ensures { result ≡ little (take 2 (drop at tape.now)) }
{
    u16::from_le_bytes([tape[at], tape[at + 1]])
}

// An operand of four bytes.
#[tactic(auto, using(tape_spec::proofs::Operands::four))]
pub fn quad(tape: &[u8], at: usize) -> u32
    requires { at + 4 ≤ length tape.now }
    ensures { result ≡ little (take 4 (drop at tape.now)) }
{
    u32::from_le_bytes([tape[at], tape[at + 1], tape[at + 2], tape[at + 3]])
}
