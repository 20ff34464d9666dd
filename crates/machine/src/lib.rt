// The machine: it runs a script over the lent heap as "Steps" and "How a run ends" say. The expression stays as loaded, in the node
// table; nodes whose part is being evaluated wait in lent frames, and bound values stand in a lent list. There a value is a number with
// the code of its kind, so that nothing is taken apart and put together again on the way; a word of the heap is read and assigned as a
// cell.
#![tactic(auto)]

use calculus::{Operation, Outcome};
use std::ops::ControlFlow;
use yields::{Hint, Terms};

// The lent tables that hold a script, and on what terms it is run.
#[derive(Clone, Copy)]
pub struct NodeScript<'a> {
    pub nodes: &'a [u64],
    pub structs: &'a [u64],
    pub types: &'a [u64],
    pub terms: Terms,
}

// A value as a number with the code of its kind.
#[derive(Clone, Copy)]
pub struct CodedValue {
    pub value: u64,
    pub code: u64,
}

// What is in focus: a node, by its number, or the value that a part gave.
#[derive(Clone, Copy)]
pub enum Focus {
    Node(u64),
    Value(CodedValue),
}

// Where the machine stands: what is in focus, how many frames and bound values there are, whether the focus lies inside an unchecked
// block, the steps taken, the number of the first unchecked one, 0 if there was none, and where malloc may start to look.
#[derive(Clone, Copy)]
pub struct State {
    pub focus: Focus,
    pub height: usize,
    pub lets: usize,
    pub inside: bool,
    pub steps: u64,
    pub first: u64,
    pub hint: Hint,
}

// A node as its row has it: what it does, its argument, the code of its kind or target, and the number of its second part.
#[derive(Clone, Copy)]
pub struct Node {
    pub operation: Operation,
    pub argument: u64,
    pub kind: u64,
    pub second: u64,
}

// A frame as its row has it: a node that waits, whether it lies inside an unchecked block, and the value of its first part, once there is
// one.
#[derive(Clone, Copy)]
pub struct Frame {
    pub node: u64,
    pub inside: bool,
    pub first: Option<CodedValue>,
}

// What a transition comes to: the machine goes on, or the run ends.
pub type Turn = ControlFlow<Outcome, State>;

mod malloc;
mod nodes;
mod redexes;
mod rows;
mod states;
mod turns;
mod values;

pub use turns::run;
