// The program: reads a tape on standard input, plans, runs, and prints the report on standard output.
#![tactic(auto)]

mod loading;
mod types;
mod writing;

use writing::print;

// A tape is at most 65,536 bytes: one more is read to tell.
fn main() {
    let mut space = [0u8; 65537];
    let n = io::read_full(0, &mut space);
    let mut points = [0i32; 8192];
    let mut work = [0i64; 8192];
    let mut cells = [0i64; 8192];
    let mut out = [0u8; 172064];
    let _written = print(&space, n, &mut points, &mut work, &mut cells, &mut out);
}
