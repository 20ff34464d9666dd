// Cells: "A word is undefined or holds a value together with its type." Kinds, cells, their packed form in lent numbers, and the
// view of a lent heap.
#![tactic(auto)]

// Whether a pointer, or the code that a step is taken in, is checked.
#[derive(Clone, Copy, Debug, PartialEq, Eq)]
pub enum Mode {
    Checked = 0,
    Unchecked = 1,
}

// The type of a value: int, or a pointer with its mode to a word type, to a struct or to an array of `count` words, each by number.
#[derive(Clone, Copy, Debug, PartialEq, Eq)]
pub enum Kind {
    Int,
    Word { mode: Mode, of: u8 },
    Struct { mode: Mode, of: u8 },
    Array { mode: Mode, count: u16, of: u8 },
}

// A value together with its type.
#[derive(Clone, Copy, Debug, PartialEq, Eq)]
pub struct Cell {
    pub value: u64,
    pub kind: Kind,
}

mod code;
mod lent;

pub use code::as_word;
pub use lent::{
    cell_at, clear, code_at, heap_words, lowest_run, put, put_word, store, value_at, word,
};
