// The generator: reads a seed line on standard input, and prints the tape of its practice campaign on standard output.
#![tactic(auto)]

mod reading;
mod types;
mod writing;

use practice_draw::seeds::SEED_LINE;
use practice_draw::tapes::LONGEST_TAPE;
use reading::read_line;
use writing::print;

// The space has room for the longest seed line, the buffer for the longest tape.
fn main() {
    let mut space = [0u8; SEED_LINE];
    let opening = read_line(&mut space);
    let mut out = [0u8; LONGEST_TAPE];
    let _used = print(&space, opening, &mut out);
}
