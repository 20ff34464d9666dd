// An address in the cell table, whose addresses rise.
ghost use Rattle.std.specs.Prelude.{◌≡◌};
ghost use Rattle.judge.specs.Addresses.{lowest_from, place, present, covered};

use crate::rows::entry;

// The first of n entries whose address is at least this one, n if there is none. `partition_point` isn't used: of a table whose addresses
// don't rise it says nothing, and the contract speaks of every table.
fn lowest_from(cells: &[u64], n: usize, address: u64) -> usize
    ensures { result ≡ lowest_from cells.now address n 0 n }
{
    let mut low = 0;
    let mut high = n;
    while low < high {
        let middle = low + (high - low) / 2;
        if entry(cells, middle, 0) < address {
            low = middle + 1;
        } else {
            high = middle;
        }
    }
    low
}

// The entry with this address, or where it would stand. In a heap without gaps the cell at address a is entry a - 1: that one is tried
// first, so that only other heaps pay for a search.
#[tactic(auto, unfolding(crate::specs::Addresses::place))]
fn place(cells: &[u64], n: usize, address: u64) -> usize
    ensures { result ≡ place cells.now n address }
{
    let guess = address.saturating_sub(1) as usize;
    if entry(cells, guess, 0) == address {
        return guess;
    }
    lowest_from(cells, n, address)
}

// Whether entry j has this address and the `more` words behind it are present: the entry that many further on then has an address
// that much higher.
#[tactic(auto, unfolding(crate::specs::Addresses::present))]
fn present(cells: &[u64], n: usize, j: usize, address: u64, more: usize) -> bool
    ensures { result ≡ present cells.now n j address more }
{
    more < n.saturating_sub(j)
        && entry(cells, j, 0) == address
        && entry(cells, j + more, 0).saturating_sub(address) == more as u64
}

// The entry of the first of the words from an address on, `more` behind the first, if they are all present.
#[tactic(auto, unfolding(crate::specs::Addresses::covered))]
pub fn covered(cells: &[u64], address: u64, more: usize) -> Option<usize>
    ensures { result ≡ covered cells.now address more }
{
    let n = cells.len() / 3;
    let j = place(cells, n, address);
    present(cells, n, j, address, more).then_some(j)
}
