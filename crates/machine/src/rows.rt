// Total accessors of the lent tables in rows of four numbers: the nodes, and the frames (node, whether it lies inside an unchecked block,
// then the value of its first part with the code of its kind, 0 while that part is evaluated). A row that is not whole is not there.
// The tables are numbers and no typed rows, since `run` promises what it does whatever numbers they hold.
ghost use Rattle.std.specs.Prelude.{◌≡◌, ◌<◌};
ghost use Rattle.machine.specs.Rows.{in_row, node_at, frame_at, framed, kept};

use crate::{CodedValue, Frame, Node};
use calculus::Operation;

// Number j of row i, 0 where there is no such row.
#[tactic(auto, unfolding(crate::specs::Rows::in_row))]
pub fn row(table: &[u64], i: usize, j: usize) -> u64
    requires { j < 4 }
    ensures { result ≡ in_row table.now i j }
{
    if i < table.len() / 4 {
        table[4 * i + j]
    } else {
        0
    }
}

// Node i, its code decoded; a row that is not there has the numbers 0.
#[tactic(auto, unfolding(crate::specs::Rows::node_at))]
pub fn node_at(nodes: &[u64], i: usize) -> Node
    ensures { result ≡ node_at nodes.now i }
{
    let operation = Operation::from(row(nodes, i, 0));
    Node {
        operation,
        argument: row(nodes, i, 1),
        kind: row(nodes, i, 2),
        second: row(nodes, i, 3),
    }
}

// Frame i; a row that is not there has the numbers 0.
#[tactic(auto, unfolding(crate::specs::Rows::frame_at))]
pub fn frame_at(frames: &[u64], i: usize) -> Frame
    ensures { result ≡ frame_at frames.now i }
{
    let value = row(frames, i, 2);
    let code = row(frames, i, 3);
    Frame {
        node: row(frames, i, 0),
        inside: row(frames, i, 1) != 0,
        first: (code != 0).then_some(CodedValue { value, code }),
    }
}

// A node waits for its first part in frame i from now on; where there is no such row nothing changes.
#[tactic(auto, unfolding(crate::specs::Rows::framed))]
pub fn put_frame(frames: &mut [u64], i: usize, node: u64, inside: bool)
    ensures { frames.new ≡ framed frames.old i node inside }
{
    if i < frames.len() / 4 {
        frames[4 * i] = node;
        frames[4 * i + 1] = u64::from(inside);
        frames[4 * i + 2] = 0;
        frames[4 * i + 3] = 0;
    }
}

// Frame i keeps the value of its node's first part from now on.
#[tactic(auto, unfolding(crate::specs::Rows::kept))]
pub fn keep(frames: &mut [u64], i: usize, v: CodedValue)
    ensures { frames.new ≡ kept frames.old i v }
{
    if i < frames.len() / 4 {
        frames[4 * i + 2] = v.value;
        frames[4 * i + 3] = v.code;
    }
}
