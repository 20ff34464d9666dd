// CoreChkC over cells: its definitions stand in specs/. Here are the names that the definitions and the code share: what a node does, why
// an image is refused, and how a run ends.
#![tactic(auto)]

use cells::Cell;

mod codes;
mod unread;

// What is done with the values of two parts.
#[derive(Clone, Copy, Debug, PartialEq, Eq)]
pub enum Act {
    // The word that the first points to becomes the second.
    Assign,
    Sum,
}

// What a node does, by its code.
#[derive(Clone, Copy, Debug, PartialEq, Eq)]
pub enum Operation {
    Literal,
    Variable,
    Let,
    Malloc,
    Unchecked,
    Cast,
    Read,
    // It acts on the values of its two parts.
    Acts(Act),
    Field,
    // No node has the code.
    Unknown,
}

// Why an image is refused, in the order of the numbers 1 to 10.
#[derive(Clone, Copy, Debug, PartialEq, Eq)]
pub enum Fault {
    // The image ends inside a number or before the expression is complete.
    Ends = 1,
    // A number is too large or not shortest.
    Unfit = 2,
    // The first number isn't the format's.
    Format = 3,
    // A count, depth or size is outside the limits.
    Limit = 4,
    // A mode, target kind, node code, type, struct or variable number is unknown.
    Unknown = 5,
    // A type entry repeats an earlier one, or a gap is 0.
    Repeat = 6,
    // An address is above W.
    Beyond = 7,
    // Bytes follow the expression.
    Behind = 8,
    // No typing rule fits a node.
    NoRule = 9,
    // A literal isn't well typed over the heap.
    IllTyped = 10,
}

// A refusal: the fault, and its place: a byte's offset, or a node's number.
#[derive(Clone, Copy, Debug, PartialEq, Eq)]
pub struct Refusal {
    pub fault: Fault,
    pub place: usize,
}

// Why a step halts, in the order of the numbers 1 to 3.
#[derive(Clone, Copy, Debug, PartialEq, Eq)]
pub enum Halt {
    Null = 1,
    Bounds = 2,
    Room = 3,
}

// How a run ends.
#[derive(Clone, Copy, Debug, PartialEq, Eq)]
pub enum End {
    // With a value and its type.
    Value(Cell),
    // A step halted.
    Halted(Halt),
    Stuck,
    More,
}

// What a run answers: its end, the steps taken, and the number of the first unchecked step, 0 if there was none.
#[derive(Clone, Copy, Debug, PartialEq, Eq)]
pub struct Outcome {
    pub end: End,
    pub steps: u64,
    pub first: u64,
}
