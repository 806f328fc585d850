// T, the step at a position and held, for C.
ghost use Rattle.std.specs.Prelude.{◌≡◌, length};
ghost use Rattle.campaign_slices.specs.Racks.{plan_from, count_refusal, at_refusal, hold_refusal, counted, stepped_at, held};

// T: a slice of one cell gets the number of steps.
#[unsafe(no_mangle)]
pub extern "C" fn campaign_step_count(small: &[u8], lengths: &[u32], count: &mut [u64]) -> u8
    ensures { (result ≡ count_refusal (plan_from small.now lengths.now) (length count.old))
        × (count.new ≡ counted (plan_from small.now lengths.now) count.old) }
{
    campaign::racks::campaign_step_count(small, lengths, count)
}

// The step at a position, done at T: a slice of five cells gets it.
#[unsafe(no_mangle)]
pub extern "C" fn campaign_step_at(
    small: &[u8],
    lengths: &[u32],
    position: u64,
    step: &mut [u64],
) -> u8
    ensures { (result ≡ at_refusal (plan_from small.now lengths.now) position (length step.old))
        × (step.new ≡ stepped_at (plan_from small.now lengths.now) position step.old) }
{
    campaign::racks::campaign_step_at(small, lengths, position, step)
}

// Held: a slice of one cell gets the number of cells that a board holds at a position.
#[unsafe(no_mangle)]
pub extern "C" fn campaign_held(
    small: &[u8],
    lengths: &[u32],
    position: u64,
    board: u32,
    cells: &mut [u64],
) -> u8
    ensures { (result ≡ hold_refusal (plan_from small.now lengths.now) position board (length cells.old))
        × (cells.new ≡ held (plan_from small.now lengths.now) position board cells.old) }
{
    campaign::racks::campaign_held(small, lengths, position, board, cells)
}
