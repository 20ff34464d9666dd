// The node judge and the access judge. "A node is judged after its parts, left before right, and the first to fail counts."
ghost use Rattle.std.specs.Prelude.{◌+◌, ◌<◌, ◌^◌, ◌≡◌, true, false};
ghost use Rattle.judge.specs.Nodes.{judging, judge_node};

use crate::ScriptTables;
use crate::parts::{bind_kind, inner_lets, inner_mode, is_access, on_wholes, parts};
use crate::rows::{operation_at, row};
use crate::rules::{leaf_told, no_rule, one_told, two_told};
use calculus::Refusal;
use cells::Mode;

// The type of node i, in code of this mode and inside `lets` lets. No more than `left` nodes remain, this one included; the literals of
// the first `good` nodes are well typed, and the next one isn't.
#[cycle(judging)]
#[tactic(auto, using(crate::proofs::Turns::has_row, crate::proofs::Turns::none_remain, crate::proofs::Turns::is_leaf))]
pub fn judge_node(
    bound: &mut [u64],
    left: usize,
    script: &ScriptTables,
    good: usize,
    lets: usize,
    mode: Mode,
    i: usize,
) -> Result<u64, Refusal>
    requires { lets + left < 2 ^ 64 }
    ensures { judging result bound.new
        ≡ judge_node script.now.structs.now script.now.types.now script.now.nodes.now good left false lets mode i bound.old }
{
    if left == 0 {
        return no_rule(i);
    }
    let rest = left - 1;
    let operation = operation_at(script.nodes, i);
    let count = parts(operation);
    if count == 0 {
        return leaf_told(bound, script, good, lets, i, operation);
    }
    let part = if is_access(operation) {
        judge_access(bound, rest, script, good, lets, mode, i + 1)
    } else {
        let inside = inner_mode(operation, mode);
        judge_node(bound, rest, script, good, lets, inside, i + 1)
    };
    let x = part?;
    if count == 1 {
        return one_told(script, mode, i, operation, x);
    }
    bind_kind(bound, operation, lets, x);
    let deep = inner_lets(operation, lets);
    let second = row(script.nodes, i, 3) as usize;
    let y = judge_node(bound, rest, script, good, deep, mode, second)?;
    two_told(script, mode, i, false, operation, x, y)
}

// The type of the pointer that node i is for an access. "An access judges the two sides of a sum itself."
#[cycle(judging)]
#[tactic(auto, using(crate::proofs::Turns::wholes_row, crate::proofs::Turns::none_remain, crate::proofs::Turns::no_wholes))]
fn judge_access(
    bound: &mut [u64],
    left: usize,
    script: &ScriptTables,
    good: usize,
    lets: usize,
    mode: Mode,
    i: usize,
) -> Result<u64, Refusal>
    requires { lets + left < 2 ^ 64 }
    ensures { judging result bound.new
        ≡ judge_node script.now.structs.now script.now.types.now script.now.nodes.now good left true lets mode i bound.old }
{
    if left == 0 {
        return no_rule(i);
    }
    let operation = operation_at(script.nodes, i);
    if on_wholes(operation) {
        let rest = left - 1;
        let x = judge_node(bound, rest, script, good, lets, mode, i + 1)?;
        let second = row(script.nodes, i, 3) as usize;
        let y = judge_node(bound, rest, script, good, lets, mode, second)?;
        return two_told(script, mode, i, true, operation, x, y);
    }
    judge_node(bound, left, script, good, lets, mode, i)
}
