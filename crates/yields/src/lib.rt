// What a node gives once its parts are values, by "Steps", on codes of kinds: a value is a number with the code of its kind, so that
// nothing is taken apart and put together again on the way; a word of the heap is read as a cell. And malloc's words, found and made zeros.
#![tactic(auto)]

use calculus::Halt;

// On what terms a script is run: how many words the heap has, the lowest and the highest address that malloc may use, and how many steps
// it may take.
#[derive(Clone, Copy, Debug, PartialEq, Eq)]
pub struct Terms {
    pub words: usize,
    pub low: usize,
    pub high: usize,
    pub limit: u64,
}

// Words are never freed: no run of `size` undefined words, or of more, starts below `from`.
#[derive(Clone, Copy, Debug, PartialEq, Eq)]
pub struct Hint {
    pub size: usize,
    pub from: usize,
}

// What a node gives: a value with the code of its kind, a halt, or that no rule fits.
// It is no Result: a value and a halt are steps, which the limit may forbid, and Blocked is none, so a caller has three answers to it.
#[derive(Clone, Copy, Debug, PartialEq, Eq)]
pub enum Yield {
    Gives { value: u64, code: u64 },
    Halts(Halt),
    Blocked,
}

// What counts as an array's count in a code: the bits that a kind's count has, or all that stands above its number. They differ on no
// kind's code.
#[derive(Clone, Copy, Debug, PartialEq, Eq)]
pub enum ArrayCounts {
    Cut,
    Whole,
}

mod malloc;
mod yields;

pub use malloc::{start, zero};
pub use yields::{field_address, read, sum};
