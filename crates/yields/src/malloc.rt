// malloc: where it starts to look for room, and the words that then become zeros.
ghost use Rattle.std.specs.Prelude.{◌≡◌};
ghost use Rattle.yields.specs.Malloc.{zero_words, sought_from};

use crate::Hint;
use cells::put_word;
use tables::{type_code, word_type};

// Where to start to look: no run of that size starts lower.
pub fn start(hint: Hint, size: usize, low: usize) -> usize
    ensures { result ≡ sought_from hint size low }
{
    if hint.size <= size { hint.from } else { low }
}

// The words that a pointer's target covers become zeros of the target's types.
#[tactic(auto, using(crate::proofs::Zeros::zero_more, crate::proofs::Zeros::zero_none))]
pub fn zero(
    heap: &mut [u64],
    structs: &[u64],
    types: &[u64],
    code: u64,
    size: usize,
    address: usize,
)
    ensures { heap.new ≡ zero_words structs.now types.now code size address 0 heap.old }
{
    for i in 0..size {
        // A run ends within the heap, so this does not wrap there.
        let a = address.wrapping_add(i);
        put_word(heap, a, 0, type_code(types, word_type(structs, code, i)));
    }
}
