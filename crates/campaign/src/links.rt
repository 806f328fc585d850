// The search over links that cost unequally, for C.
ghost use Rattle.std.specs.Prelude.{◌≡◌, length};
ghost use Rattle.cube_spec.specs.Refusals.{refused_by};
ghost use Rattle.campaign_slices.specs.Links.{lent_search_refusal, lent_search};

use campaign_slices::put_searched;
use cube_spec::refusals::{Refusal, answer};
use link_search::searching::search_links;

fn search(
    lengths: &[u32],
    p: u8,
    links: &[u32],
    budget: u64,
    cells: &mut [u64],
) -> Result<(), Refusal>
    ensures { (refused_by result ≡ lent_search_refusal lengths.now p links.now budget (length cells.old))
        × (cells.new ≡ lent_search lengths.now p links.now budget cells.old) }
{
    put_searched(cells, search_links(lengths, p, links, budget)?)
}

// Searches the divisions of a campaign over links of given weights: a slice of eleven cells gets the cost, the distance, how many divisions were
// priced, and eight exponents by axis number.
#[unsafe(no_mangle)]
pub extern "C" fn campaign_search(
    lengths: &[u32],
    p: u8,
    links: &[u32],
    budget: u64,
    cells: &mut [u64],
) -> u8
    ensures { (result ≡ lent_search_refusal lengths.now p links.now budget (length cells.old))
        × (cells.new ≡ lent_search lengths.now p links.now budget cells.old) }
{
    answer(search(lengths, p, links, budget, cells))
}
