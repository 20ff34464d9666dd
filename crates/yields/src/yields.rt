// Reads, sums and addresses of fields.
ghost use Rattle.std.specs.Prelude.{◌≡◌, ◌+◌, ◌/◌, ◌%◌, ◌^◌, ◌≤◌};
ghost use Rattle.yields.specs.Yields.{count_by, read_gives, word_gives, fallen_by, sum_gives, field_gives};

use crate::{ArrayCounts, Yield};
use calculus::Halt;
use cells::cell_at;
use tables::{
    count_of, field_count, field_type, is_checked, is_checked_array, number_of, tag_of, word_code,
};

// Read at a pointer, in a heap of so many words.
#[tactic(auto, unfolding(crate::specs::Yields::read_gives))]
pub fn read(counts: ArrayCounts, heap: &[u64], words: usize, value: u64, code: u64) -> Yield
    ensures { result ≡ read_gives counts heap.now words value code }
{
    if is_checked(code) && value == 0 {
        return Yield::Halts(Halt::Null);
    }
    if is_checked_array(code) && array_count(counts, code) == 0 {
        return Yield::Halts(Halt::Bounds);
    }
    held(heap, words, value as usize)
}

// What the word at an address holds: what is lent behind the heap's words is not looked at.
#[tactic(auto, unfolding(crate::specs::Yields::word_gives))]
fn held(heap: &[u64], words: usize, address: usize) -> Yield
    ensures { result ≡ word_gives heap.now words address }
{
    if words < address {
        return Yield::Blocked;
    }
    match cell_at(heap, address) {
        None => Yield::Blocked,
        Some(cell) => Yield::Gives {
            value: cell.value,
            code: cell.kind.into(),
        },
    }
}

// The sum of a value and a number: the count of a checked array pointer falls by the number, not below 0.
#[tactic(auto, unfolding(crate::specs::Yields::sum_gives))]
pub fn sum(counts: ArrayCounts, value: u64, code: u64, k: u64) -> Yield
    ensures { result ≡ sum_gives counts value code k }
{
    if is_checked_array(code) && value == 0 {
        return Yield::Halts(Halt::Null);
    }
    Yield::Gives {
        value: added(value, k),
        code: fallen(counts, code, k),
    }
}

// The code after a sum.
#[tactic(auto, unfolding(crate::specs::Yields::fallen_by))]
fn fallen(counts: ArrayCounts, code: u64, k: u64) -> u64
    ensures { result ≡ fallen_by counts code k }
{
    if is_checked_array(code) {
        code % 2048 + 2048 * array_count(counts, code).saturating_sub(k)
    } else {
        code
    }
}

// An array's count.
fn array_count(counts: ArrayCounts, code: u64) -> u64
    ensures { (result ≡ count_by counts code) × (result ≤ code / 2048) }
{
    match counts {
        ArrayCounts::Cut => count_of(code) as u64,
        ArrayCounts::Whole => code / 2048,
    }
}

// The address of a field of a struct.
#[tactic(auto, unfolding(crate::specs::Yields::field_gives, crate::specs::Yields::struct_gives))]
pub fn field_address(structs: &[u64], f: u64, value: u64, code: u64) -> Yield
    ensures { result ≡ field_gives structs.now f value code }
{
    let of = number_of(code);
    if tag_of(code) != 2 || field_count(structs, of) <= f as usize {
        return Yield::Blocked;
    }
    if is_checked(code) && value == 0 {
        return Yield::Halts(Halt::Null);
    }
    Yield::Gives {
        value: added(value, f),
        code: word_code(code, field_type(structs, of, f as usize)),
    }
}

// "Sums of numbers are taken modulo 2^32".
fn added(n: u64, k: u64) -> u64
    ensures { result ≡ (n + k) % 2 ^ 32 }
{
    n.wrapping_add(k) % 4294967296
}
