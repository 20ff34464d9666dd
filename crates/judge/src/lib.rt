// The type check: "Typing starts after the whole image is read." The literals are judged over the cell table first, then the nodes.
#![tactic(auto)]

ghost use Rattle.judge.specs.Script.{ScriptJudged};

use crate::literals::first_bad;
use crate::nodes::judge_node;
use calculus::Refusal;
use cells::{Kind, Mode};

mod addresses;
mod literals;
mod marks;
mod nodes;
mod parts;
mod rows;
mod rules;

// The lent tables that hold a script. Loops take them by value, since the compiler then keeps the slices in registers, and the recursion
// by reference.
#[derive(Clone, Copy)]
struct ScriptTables<'a> {
    structs: &'a [u64],
    types: &'a [u64],
    cells: &'a [u64],
    nodes: &'a [u64],
}

// The verdict on the script in the lent tables: its type, or the fault with the number of the node that has it. `marks` has a number for
// each entry of the cell table, `queue` as many, `bound` one for each let that the expression nests.
pub fn judge_script(
    structs: &[u64],
    types: &[u64],
    cells: &[u64],
    nodes: &[u64],
    marks: &mut [u16],
    queue: &mut [u64],
    bound: &mut [u64],
) -> Result<Kind, Refusal>
    ensures { ScriptJudged structs.now types.now cells.now nodes.now
        marks.old queue.old bound.old
        result marks.new queue.new bound.new }
{
    let script = ScriptTables {
        structs,
        types,
        cells,
        nodes,
    };
    let good = first_bad(marks, queue, script);
    let left = nodes.len() / 4;
    let code = judge_node(bound, left, &script, good, 0, Mode::Checked, 0)?;
    Ok(Kind::from(code))
}
