// The lent tables that hold a script: the rows of its expression in run order, its structs and its word types. Here
// stand their strides, the fields of a row's head and the tags in a kind's code.
// They are numbers and no typed rows, and kinds are codes, since what is answered is promised whatever numbers are lent.
#![tactic(auto)]

use calculus::Act;

mod heads;
mod kinds;
mod rows;

pub use heads::{is_inside, left_of, node_of, slot_of, task_of};
pub use kinds::{
    count_of, fallen_code, field_count, field_type, is_checked, is_checked_array, number_of,
    size_of, tag_of, type_code, word_code, word_type,
};
pub use rows::{datum_at, head_at, put_row};

// What a row does. A node's row stands behind its parts' rows.
#[derive(Clone, Copy, Debug, PartialEq, Eq)]
pub enum Task {
    // Behind the last row.
    Stop,
    Literal,
    Variable,
    Malloc,
    Unchecked,
    Cast,
    Read,
    Field,
    // It acts on the values of its two parts.
    Acts(Act),
    // A let, between its bound part and its body.
    Bind,
    // A let, behind its body.
    Unbind,
}

// The head of a row, field by field.
#[derive(Clone, Copy, Debug, PartialEq, Eq)]
pub struct RowHead {
    pub task: Task,
    // Its redex lies inside an unchecked block.
    pub inside: bool,
    // A literal's or a cast's word type number; how many lets out a variable's is.
    pub slot: usize,
    // For an act the row behind its left part's rows, for a let's end the number of its Bind row.
    pub left: usize,
    // The node's number in the image.
    pub node: usize,
}
