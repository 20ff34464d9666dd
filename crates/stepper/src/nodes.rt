// What a node with one part gives, and the step of an act on two values.
ghost use Rattle.std.specs.Prelude.{◌≡◌};
ghost use Rattle.yields.specs.declared.ArrayCounts.TheVariants.{Cut};
ghost use Rattle.yields.specs.Yields.{store_gives, assign_gives, act_gives};
ghost use Rattle.stepper.specs.Nodes.{one_gives};
ghost use Rattle.stepper.specs.States.{changed, settled_on};

use crate::{RowScript, StepState, StepTurn};
use calculus::Act;
use cells::{Cell, store};
use tables::{Task, type_code};
use yields::{ArrayCounts, Terms, Yield, field_address, read, sum};

// A node with one part, whose value is on top; the slot and the datum are its row's.
#[tactic(auto, unfolding(crate::specs::Nodes::one_gives))]
pub fn one(
    heap: &[u64],
    script: &RowScript,
    s: StepState,
    task: Task,
    slot: usize,
    datum: u64,
) -> Yield
    ensures { result
        ≡ one_gives script.now.structs.now script.now.types.now script.now.terms.words heap.now s.value s.code task slot datum }
{
    match task {
        Task::Unchecked => Yield::Gives {
            value: s.value,
            code: s.code,
        },
        Task::Cast => Yield::Gives {
            value: s.value,
            code: type_code(script.types, slot),
        },
        Task::Read => read(ArrayCounts::Cut, heap, script.terms.words, s.value, s.code),
        Task::Field => field_address(script.structs, datum, s.value, s.code),
        _ => Yield::Blocked,
    }
}

// What is done with two values: that of the first part is told, that of the second is on top.
#[tactic(auto, using(crate::proofs::Settled::settled_alike))]
pub fn act(heap: &mut [u64], terms: Terms, s: StepState, o: Act, value: u64, code: u64) -> StepTurn
    ensures { changed result heap.new ≡ settled_on terms.limit s heap.old (act_gives Cut terms.words heap.old o s.value s.code value code) }
{
    match o {
        Act::Assign => assign(heap, terms, s, value, code),
        Act::Sum => s.settle(terms.limit, sum(ArrayCounts::Cut, value, code, s.value)),
    }
}

// Assign the value on top at a pointer: where a read gives a value.
#[tactic(auto, using(crate::proofs::Settled::settled_alike), unfolding(yields::specs::Yields::assign_gives))]
fn assign(heap: &mut [u64], terms: Terms, s: StepState, value: u64, code: u64) -> StepTurn
    ensures { changed result heap.new ≡ settled_on terms.limit s heap.old (assign_gives Cut terms.words heap.old s.value s.code value code) }
{
    match read(ArrayCounts::Cut, heap, terms.words, value, code) {
        Yield::Gives { .. } => write(heap, terms.limit, s, value as usize),
        Yield::Halts(why) => s.halt(terms.limit, why),
        Yield::Blocked => s.stuck(),
    }
}

// The word at the address holds the value on top, a step later.
#[tactic(auto, unfolding(crate::specs::States::settled_on))]
fn write(heap: &mut [u64], limit: u64, s: StepState, address: usize) -> StepTurn
    ensures { changed result heap.new ≡ settled_on limit s heap.old (store_gives heap.old s.value s.code address) }
{
    if limit <= s.steps {
        return s.more();
    }
    let cell = Cell {
        value: s.value,
        kind: s.code.into(),
    };
    store(heap, address, cell);
    StepTurn::Steps(s.topped(s.value, s.code).counted())
}
