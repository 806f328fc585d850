// Planning and pricing, for C.
ghost use Rattle.std.specs.Prelude.{◌≡◌, length};
ghost use Rattle.controller.specs.Bytes.{controller_refusal, written};
ghost use Rattle.campaign_slices.specs.Racks.{plan_from, price_refusal, priced};
ghost use Rattle.campaign.specs.Calls.{idle_refusal, idling, made, making};

// Planning for a rack controller: lengths as 2-byte little-endian pairs and p. The result of 2n bytes gets the axis numbers and then the exponents,
// both in plan order; these sum to the p used.
#[unsafe(no_mangle)]
pub extern "C" fn campaign_plan(lengths: &[u8], p: u8, res: &mut [u8]) -> u8
    ensures { (result ≡ controller_refusal lengths.now p (length res.old))
        × (res.new ≡ written lengths.now p res.old) }
{
    campaign::plans::campaign_plan(lengths, p, res)
}

// How many of the boards that a controller asks for stand idle: a slice of one cell gets their number.
#[unsafe(no_mangle)]
pub extern "C" fn campaign_idle(lengths: &[u8], p: u8, idle: &mut [u64]) -> u8
    ensures { (result ≡ idle_refusal lengths.now p (length idle.old))
        × (idle.new ≡ idling lengths.now p idle.old) }
{
    campaign::plans::campaign_idle(lengths, p, idle)
}

// Planning with prices: two slices get the plan, and four cells the values moved, the cells added up, A and the idle boards.
#[unsafe(no_mangle)]
pub extern "C" fn campaign_make(
    lengths: &[u32],
    p: u8,
    small: &mut [u8],
    slots: &mut [u32],
    cells: &mut [u64],
) -> u8
    ensures { made result small.new slots.new cells.new
        ≡ making lengths.now p small.old slots.old cells.old }
{
    campaign::plans::campaign_make(lengths, p, small, slots, cells)
}

// Pricing: four cells get the values moved, the cells added up, A and the mark, 1 where no way adds up fewer cells, else 0.
#[unsafe(no_mangle)]
pub extern "C" fn campaign_price(small: &[u8], lengths: &[u32], prices: &mut [u64]) -> u8
    ensures { (result ≡ price_refusal (plan_from small.now lengths.now) (length prices.old))
        × (prices.new ≡ priced (plan_from small.now lengths.now) prices.old) }
{
    campaign::plans::campaign_price(small, lengths, prices)
}
