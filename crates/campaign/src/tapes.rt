// The tape's reader, for C.
ghost use Rattle.std.specs.Prelude.{◌≡◌, length};
ghost use Rattle.cube_spec.specs.Refusals.{refused_by};
ghost use Rattle.tape_spec.specs.Reading.{reading_refusal, reading};
ghost use Rattle.campaign_slices.specs.Scans.{lent_scan_refusal, lent_scan, open_refusal, opened_array, opened_scan};

use campaign_slices::{SCAN_CELLS, put_scan};
use cube_spec::refusals::{Refusal, answer};

fn scan_tape(tape: &[u8], scan: &mut [u64]) -> Result<(), Refusal>
    ensures { (refused_by result ≡ lent_scan_refusal tape.now (length scan.old))
        × (scan.new ≡ lent_scan tape.now scan.old) }
{
    let found = tape_scan::scan(tape)?;
    if scan.len() != SCAN_CELLS {
        return Err(Refusal::Result);
    }
    put_scan(scan, found);
    Ok(())
}

// Scans a tape: a slice of twelve cells gets the number of axes, p, the numbers of points and of commands, and the first eight lengths.
#[unsafe(no_mangle)]
pub extern "C" fn campaign_scan(tape: &[u8], scan: &mut [u64]) -> u8
    ensures { (result ≡ lent_scan_refusal tape.now (length scan.old))
        × (scan.new ≡ lent_scan tape.now scan.old) }
{
    answer(scan_tape(tape, scan))
}

fn open_tape(tape: &[u8], array: &mut [i32], scan: &mut [u64]) -> Result<(), Refusal>
    ensures { (refused_by result ≡ open_refusal tape.now (length array.old) (length scan.old))
        × (array.new ≡ opened_array tape.now array.old (length scan.old))
        × (scan.new ≡ opened_scan tape.now (length array.old) scan.old) }
{
    let found = tape_scan::scan(tape)?;
    if (array.len() as u64) < found.points {
        return Err(Refusal::Memory);
    }
    if scan.len() != SCAN_CELLS {
        return Err(Refusal::Result);
    }
    tape_fill::fill_scanned(tape, array);
    put_scan(scan, found);
    Ok(())
}

// Opens a campaign, its tape scanned once: a slice gets the points at its start, another the cells of the scan. Lengths, p and the number of points
// are planning's and the steps' to judge.
#[unsafe(no_mangle)]
pub extern "C" fn campaign_open(tape: &[u8], array: &mut [i32], scan: &mut [u64]) -> u8
    ensures { (result ≡ open_refusal tape.now (length array.old) (length scan.old))
        × (array.new ≡ opened_array tape.now array.old (length scan.old))
        × (scan.new ≡ opened_scan tape.now (length array.old) scan.old) }
{
    answer(open_tape(tape, array, scan))
}

// Puts a tape's points at the start of a slice, and leaves the cells after them.
#[unsafe(no_mangle)]
pub extern "C" fn campaign_fill(tape: &[u8], array: &mut [i32]) -> u8
    ensures { (result ≡ reading_refusal tape.now (length array.old))
        × (array.new ≡ reading tape.now array.old) }
{
    answer(tape_fill::fill(tape, array))
}
