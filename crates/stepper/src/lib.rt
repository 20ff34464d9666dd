// The machine over rows in run order: it runs a script over the lent heap as "Steps" and "How a run ends" say. The rows stay as loaded; the
// values that wait for their node stand on a lent stack, and bound values in a lent list. There a value is a number with the code of its
// kind, so that nothing is taken apart and put together again on the way; a word of the heap is read and assigned as a cell.
// It is no instance of the machine over nodes: there a step leads to a node or a frame, here to the next row, and the states differ.
#![tactic(auto)]

use calculus::Outcome;
use yields::{Hint, Terms};

// A script in lent numbers: the rows of its expression, its structs and its word types; and on what terms it is run.
#[derive(Clone, Copy)]
pub struct RowScript<'a> {
    pub rows: &'a [u64],
    pub structs: &'a [u64],
    pub types: &'a [u64],
    pub terms: Terms,
}

// Where the machine stands: the row that is next; the value on top of the stack with the code of its kind; how many values are on the
// stack, that one included, and how many are bound; whether the row that was looked at lies inside an unchecked block; the steps taken, the
// number of the first unchecked one, 0 if there was none, as an outcome has it; and where malloc may start to look.
// Value and code are no Option: on an empty stack a row puts them below its own value unasked, where nobody reads them.
#[derive(Clone, Copy, Debug, PartialEq, Eq)]
pub struct StepState {
    pub row: usize,
    pub value: u64,
    pub code: u64,
    pub height: usize,
    pub lets: usize,
    pub inside: bool,
    pub steps: u64,
    pub first: u64,
    pub hint: Hint,
}

// What a row comes to: the machine goes on without a step, or after one; or the run ends.
// It is no ControlFlow: that would have to tell Goes from Steps by one more enum inside.
#[derive(Clone, Copy, Debug, PartialEq, Eq)]
pub enum StepTurn {
    Goes(StepState),
    Steps(StepState),
    Ends(Outcome),
}

mod malloc;
mod nodes;
mod stack;
mod states;
mod turns;

pub use turns::{advance, at_start, run};
