// The expression of an image, read into rows in run order.
// It is no instance of the image's own reader: that writes a node before its parts, this one its row behind theirs.
#![tactic(auto)]

ghost use Rattle.std.specs.Prelude.{◌≡◌};
ghost use Rattle.reader.specs.declared.NotRead.TheVariants.{Refused};

use calculus::Refusal;
use tables::Task;

mod answer;
mod around;
mod bytes;
mod cursor;
mod leaves;
mod nodes;
mod rows;
mod short;

pub use rows::read_rows;

// An expression that stands in the lent rows: the offset behind it, how many nodes it has, and how many rows, the one that stops among them.
#[derive(Clone, Copy, Debug, PartialEq, Eq)]
pub struct Expression {
    pub next: usize,
    pub nodes: usize,
    pub rows: usize,
}

// Why none stands there.
#[derive(Clone, Copy, Debug, PartialEq, Eq)]
pub enum NotRead {
    Refused(Refusal),
    // The lent rows are too few for what the rest of the image may hold, and nothing was read.
    Short,
}

impl From<Refusal> for NotRead {
    ghost from_gives = { λ refusal why. why ≡ Refused refusal };

    fn from(refusal: Refusal) -> NotRead {
        NotRead::Refused(refusal)
    }
}

// What is known while the nodes are read: the part of the image that they stand in, how many word types there are, int among them, and how
// many structs.
#[derive(Clone, Copy)]
struct RowReader<'a> {
    image: &'a [u8],
    known: u64,
    structs: u64,
}

// What stands behind the code of a node with one part: what its row does, with slot and datum, and whether the part lies inside an unchecked
// block.
#[derive(Clone, Copy)]
struct PartLine {
    task: Task,
    slot: usize,
    datum: u64,
    inside: bool,
}
