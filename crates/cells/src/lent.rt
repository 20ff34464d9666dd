// A heap in lent numbers, two a word, and the total accessors of lent numbers. A word is no struct: the C interface lends numbers, any at all.
ghost use Rattle.std.specs.Prelude.{◌≡◌, ◌+◌, ◌<◌, min, slice_index, slice_set};
ghost use Rattle.cells.specs.Lent.{heap_words, word_at, lent_number, stored, put_word, cleared, lowest_run};
ghost use Rattle.cells.specs.Heap.{undefined};

use crate::Cell;
use crate::code::as_word;

// The number at an index, 0 past the end.
pub fn word(s: &[u64], i: usize) -> u64
    ensures { result ≡ slice_index s.now i }
{
    s.get(i).copied().unwrap_or(0)
}

// The number at an index becomes v; past the end nothing changes.
pub fn put(s: &mut [u64], i: usize, v: u64)
    ensures { s.new ≡ slice_set s.old i v }
{
    if i < s.len() {
        s[i] = v;
    }
}

// How many words a lent heap has.
pub fn heap_words(heap: &[u64]) -> usize
    ensures { result ≡ heap_words heap.now }
{
    (heap.len() / 2).min(4096)
}

// The word at an address.
pub fn cell_at(heap: &[u64], address: usize) -> Option<Cell>
    ensures { result ≡ word_at heap.now address }
{
    as_word(value_at(heap, address), code_at(heap, address))
}

// The value of the word at an address, 0 where there is no such word.
pub fn value_at(heap: &[u64], address: usize) -> u64
    ensures { result ≡ lent_number heap.now address 0 }
{
    number_at(heap, address, 0)
}

// The code of its kind, 0 if it is undefined.
pub fn code_at(heap: &[u64], address: usize) -> u64
    ensures { result ≡ lent_number heap.now address 1 }
{
    number_at(heap, address, 1)
}

// The word at an address holds the cell from now on; where there is no such word nothing changes.
pub fn store(heap: &mut [u64], address: usize, cell: Cell)
    ensures { heap.new ≡ stored heap.old address cell }
{
    put_word(heap, address, cell.value, cell.kind.into());
}

// The word at an address holds the value of the kind with that code from now on; where there is no such word nothing changes.
pub fn put_word(heap: &mut [u64], address: usize, value: u64, code: u64)
    ensures { heap.new ≡ put_word heap.old address value code }
{
    let i = std::num::wrapping_sub_usize(address, 1);
    if i < heap.len() / 2 {
        heap[2 * i] = value;
        heap[2 * i + 1] = code;
    }
}

// The first `words` words, or all if there are fewer, become undefined.
pub fn clear(heap: &mut [u64], words: usize)
    ensures { heap.new ≡ cleared heap.old words }
{
    let end = 2 * words.min(heap.len() / 2);
    heap[..end].fill(0);
}

// The lowest run of k undefined words within low to high and within the heap. One pass: `run` counts the undefined words up to `a`, and a
// defined word begins the count anew. The count is tested where it grows alone, so that the processor need not wait for it at a defined
// word; and never inlined, so that the loop has all registers.
#[inline(never)]
pub fn lowest_run(heap: &[u64], k: usize, low: usize, high: usize) -> Option<usize>
    ensures { result ≡ lowest_run heap.now k low high }
{
    let last = high.min(heap.len() / 2);
    if k == 0 {
        return if low < last + 2 { Some(low) } else { None };
    }
    let mut run = 0;
    for a in low..last + 1 {
        if is_undefined(heap, a) {
            run += 1;
            if run == k {
                return Some(a + 1 - k);
            }
        } else {
            run = 0;
        }
    }
    None
}

fn is_undefined(heap: &[u64], address: usize) -> bool
    ensures { result ≡ undefined (word_at heap.now address) }
{
    code_at(heap, address) == 0
}

// Number j of the word at an address: 0 where there is no such word.
fn number_at(heap: &[u64], address: usize, j: usize) -> u64
    requires { j < 2 }
    ensures { result ≡ lent_number heap.now address j }
{
    // Address 0 wraps to the highest number, and no heap is that long.
    let place = std::num::wrapping_sub_usize(address, 1);
    if place < heap.len() / 2 {
        heap[2 * place + j]
    } else {
        0
    }
}
