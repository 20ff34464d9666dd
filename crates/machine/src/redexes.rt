// What a node gives once its parts are values, and the step of an act on two values, by "Steps".
ghost use Rattle.std.specs.Prelude.{◌≡◌, ◌^◌, ◌<◌};
ghost use Rattle.yields.specs.declared.ArrayCounts.TheVariants.{Whole};
ghost use Rattle.yields.specs.Yields.{act_gives, assign_gives, store_gives};
ghost use Rattle.machine.specs.Redexes.{one_yield};
ghost use Rattle.machine.specs.States.{leaving, settled};

use crate::{CodedValue, Node, State, Turn};
use calculus::{Act, Operation};
use cells::store;
use std::ops::ControlFlow;
use yields::{ArrayCounts, Terms, Yield, field_address, read, sum};

// A node with one part, whose value is told.
#[tactic(auto, using(crate::proofs::Arms::not_single), unfolding(crate::specs::Redexes::one_yield))]
pub fn one(heap: &[u64], structs: &[u64], words: usize, v: CodedValue, node: Node) -> Yield
    ensures { result ≡ one_yield structs.now words heap.now v node.operation node.argument node.kind }
{
    match node.operation {
        Operation::Unchecked => Yield::Gives {
            value: v.value,
            code: v.code,
        },
        Operation::Cast => Yield::Gives {
            value: v.value,
            code: node.kind,
        },
        Operation::Read => read(ArrayCounts::Whole, heap, words, v.value, v.code),
        Operation::Field => field_address(structs, node.argument, v.value, v.code),
        _ => Yield::Blocked,
    }
}

// What is done with two values, that of the first part and v of the second.
#[tactic(auto, using(crate::proofs::Memory::settled_same))]
pub fn act(
    heap: &mut [u64],
    terms: Terms,
    s: State,
    v: CodedValue,
    o: Act,
    first: CodedValue,
) -> Turn
    requires { s.steps < 2 ^ 63 }
    ensures { leaving result heap.new
        ≡ settled terms.limit s heap.old (act_gives Whole terms.words heap.old o v.value v.code first.value first.code) }
{
    match o {
        Act::Assign => assign(heap, terms, s, v, first),
        Act::Sum => s.contracted(
            terms.limit,
            sum(ArrayCounts::Whole, first.value, first.code, v.value),
        ),
    }
}

// Assign the value v at a pointer: where a read gives a value.
#[tactic(auto, using(crate::proofs::Memory::settled_same), unfolding(yields::specs::Yields::assign_gives))]
fn assign(heap: &mut [u64], terms: Terms, s: State, v: CodedValue, to: CodedValue) -> Turn
    requires { s.steps < 2 ^ 63 }
    ensures { leaving result heap.new
        ≡ settled terms.limit s heap.old (assign_gives Whole terms.words heap.old v.value v.code to.value to.code) }
{
    match read(ArrayCounts::Whole, heap, terms.words, to.value, to.code) {
        Yield::Gives { .. } => write(heap, terms.limit, s, v, to.value as usize),
        Yield::Halts(why) => s.halt(terms.limit, why),
        Yield::Blocked => s.stuck(),
    }
}

// The word at the address holds the value v, a step later.
#[tactic(auto, unfolding(crate::specs::States::settled))]
fn write(heap: &mut [u64], limit: u64, s: State, v: CodedValue, address: usize) -> Turn
    ensures { leaving result heap.new ≡ settled limit s heap.old (store_gives heap.old v.value v.code address) }
{
    let next = s.with_value(v.value, v.code).step_within(limit)?;
    store(heap, address, v.into());
    ControlFlow::Continue(next)
}
