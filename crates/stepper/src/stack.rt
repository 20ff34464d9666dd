// The rows that move values between the stack, the bound values and the heap: what a row pushes, acts on, binds and forgets.
ghost use Rattle.std.specs.Prelude.{◌≡◌, ◌-◌};
ghost use Rattle.stepper.specs.Stack.{pushed, fetched, allotted, applied, joined_row, bound_next, unbound_next, stopped_at};
ghost use Rattle.stepper.specs.States.{changed, placed_on};

use crate::malloc::malloc;
use crate::nodes::{act, one};
use crate::{RowScript, StepState, StepTurn};
use calculus::Act;
use cells::{code_at, put_word, value_at};
use tables::Task;
use yields::Terms;

// A value is put on top, and the one that was there below it: values below the top stand on the stack as words in a heap, the bottom one
// at address 1. An empty stack has no word to put.
#[tactic(auto, unfolding(crate::specs::Stack::pushed))]
pub fn push(stack: &mut [u64], s: StepState, value: u64, code: u64) -> StepTurn
    ensures { changed result stack.new ≡ pushed stack.old s value code }
{
    let height = s.height;
    if stack.len() / 2 < height {
        return s.stuck();
    }
    put_word(stack, height, s.value, s.code);
    StepTurn::Goes(s.sized(height + 1, s.lets).topped(value, code))
}

// The value of a variable, by how many lets out it is, the outermost at address 1; int 0 where it is bound nowhere.
#[tactic(auto, unfolding(crate::specs::Stack::fetched))]
pub fn fetch(stack: &mut [u64], bound: &[u64], s: StepState, out: usize) -> StepTurn
    ensures { changed result stack.new ≡ fetched stack.old bound.now s out }
{
    let lets = s.lets;
    if lets <= out {
        return push(stack, s, 0, 1);
    }
    let value = value_at(bound, lets - out);
    let code = code_at(bound, lets - out);
    push(stack, s, value, code)
}

// A malloc: its pointer is put on top.
#[tactic(auto, unfolding(crate::specs::Stack::allotted))]
pub fn allot(
    heap: &mut [u64],
    stack: &mut [u64],
    script: &RowScript,
    s: StepState,
    code: u64,
) -> StepTurn
    ensures { placed_on result heap.new stack.new
        ≡ allotted script.now.structs.now script.now.types.now script.now.terms heap.old stack.old s code }
{
    let height = s.height;
    if stack.len() / 2 < height {
        return s.stuck();
    }
    put_word(stack, height, s.value, s.code);
    malloc(heap, script, s.sized(height + 1, s.lets), code)
}

// A node with one part: what it gives takes the place of the value on top.
#[tactic(auto, unfolding(crate::specs::Stack::applied))]
pub fn apply(
    heap: &[u64],
    script: &RowScript,
    s: StepState,
    task: Task,
    slot: usize,
    datum: u64,
) -> StepTurn
    ensures { result ≡ applied script.now.structs.now script.now.types.now script.now.terms heap.now s task slot datum }
{
    if s.height == 0 {
        return s.stuck();
    }
    s.settle(script.terms.limit, one(heap, script, s, task, slot, datum))
}

// A node with two parts: what it gives takes the place of both values.
#[tactic(auto, unfolding(crate::specs::Stack::joined_row))]
pub fn join(heap: &mut [u64], stack: &[u64], terms: Terms, s: StepState, o: Act) -> StepTurn
    ensures { changed result heap.new ≡ joined_row terms heap.old stack.now s o }
{
    let height = s.height;
    if height < 2 {
        return s.stuck();
    }
    let under = height - 1;
    let value = value_at(stack, under);
    let code = code_at(stack, under);
    act(heap, terms, s.sized(under, s.lets), o, value, code)
}

// The value on top is bound, a step, and the one below it is on top.
#[tactic(auto, unfolding(crate::specs::Stack::bound_next))]
pub fn bind(bound: &mut [u64], stack: &[u64], limit: u64, s: StepState) -> StepTurn
    ensures { changed result bound.new ≡ bound_next limit stack.now bound.old s }
{
    let height = s.height;
    let lets = s.lets;
    if height == 0 || bound.len() / 2 <= lets {
        return s.stuck();
    }
    if limit <= s.steps {
        return s.more();
    }
    let below = height - 1;
    let value = value_at(stack, below);
    let code = code_at(stack, below);
    put_word(bound, lets + 1, s.value, s.code);
    StepTurn::Steps(s.sized(below, lets + 1).topped(value, code).counted())
}

// The innermost bound value is forgotten.
#[tactic(auto, unfolding(crate::specs::Stack::unbound_next))]
pub fn unbind(s: StepState) -> StepTurn
    ensures { result ≡ unbound_next s }
{
    let lets = s.lets;
    if lets == 0 {
        return s.stuck();
    }
    StepTurn::Goes(s.sized(s.height, lets - 1).topped(s.value, s.code))
}

// The value on top is the whole expression's.
#[tactic(auto, unfolding(crate::specs::Stack::stopped_at))]
pub fn stop(s: StepState) -> StepTurn
    ensures { result ≡ stopped_at s }
{
    if s.height == 0 { s.stuck() } else { s.done() }
}
