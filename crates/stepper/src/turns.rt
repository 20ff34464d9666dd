// A row, the rows up to and including the next step, and the run.
ghost use Rattle.std.specs.Prelude.{◌≡◌};
ghost use Rattle.tables.specs.Rows.{whole_rows};
ghost use Rattle.stepper.specs.Turns.{row_turn, advanced, advanced_to, flow_of, start_state};
ghost use Rattle.stepper.specs.Entry.{StepRan};
ghost use Rattle.stepper.specs.States.{turned_to};

use crate::stack::{allot, apply, bind, fetch, join, push, stop, unbind};
use crate::{RowScript, StepState, StepTurn};
use calculus::{End, Outcome};
use std::ops::ControlFlow;
use tables::{Task, datum_at, head_at, is_inside, slot_of, task_of, type_code};
use yields::{Hint, Terms};

// Runs the script over the heap, on its terms. The three that are written stay apart, since a row lends one or two of them on.
pub fn run(heap: &mut [u64], stack: &mut [u64], bound: &mut [u64], script: &RowScript) -> Outcome
    ensures { StepRan script.now.rows.now script.now.structs.now script.now.types.now script.now.terms heap.old stack.old bound.old
        result heap.new stack.new bound.new }
{
    let mut s = at_start(script.terms);
    // Each of these takes a step but the last, which the limit ends.
    for _ in 0..=script.terms.limit {
        match advance(heap, stack, bound, script, s) {
            ControlFlow::Continue(next) => s = next,
            ControlFlow::Break(outcome) => return outcome,
        }
    }
    s.outcome(End::Stuck)
}

// Where a run starts.
pub fn at_start(terms: Terms) -> StepState
    ensures { result ≡ start_state terms }
{
    StepState {
        row: 0,
        value: 0,
        code: 0,
        height: 0,
        lets: 0,
        inside: false,
        steps: 0,
        first: 0,
        hint: Hint {
            size: 0,
            from: terms.low,
        },
    }
}

// Up to and including the next step, or to the end.
pub fn advance(
    heap: &mut [u64],
    stack: &mut [u64],
    bound: &mut [u64],
    script: &RowScript,
    s: StepState,
) -> ControlFlow<Outcome, StepState>
    ensures { advanced_to result heap.new stack.new bound.new
        ≡ flow_of (advanced script.now.rows.now script.now.structs.now script.now.types.now script.now.terms (whole_rows script.now.rows.now)
        s heap.old stack.old bound.old) }
{
    let mut now = s;
    // Rows without a step go forward, so that there are no more of them than rows, and behind them a row that stops.
    for _ in 0..script.rows.len() / 2 + 1 {
        match turn(heap, stack, bound, script, now) {
            StepTurn::Goes(next) => now = next,
            StepTurn::Steps(next) => return ControlFlow::Continue(next),
            StepTurn::Ends(outcome) => return ControlFlow::Break(outcome),
        }
    }
    ControlFlow::Break(now.outcome(End::Stuck))
}

// One row.
#[tactic(auto, unfolding(crate::specs::Turns::row_turn, crate::specs::Stack::task_turn))]
fn turn(
    heap: &mut [u64],
    stack: &mut [u64],
    bound: &mut [u64],
    script: &RowScript,
    from: StepState,
) -> StepTurn
    ensures { turned_to result heap.new stack.new bound.new
        ≡ row_turn script.now.rows.now script.now.structs.now script.now.types.now script.now.terms heap.old stack.old bound.old from }
{
    let head = head_at(script.rows, from.row);
    let datum = datum_at(script.rows, from.row);
    let slot = slot_of(head);
    let s = from.looked(is_inside(head));
    let task = task_of(head);
    match task {
        Task::Literal => push(stack, s, datum, type_code(script.types, slot)),
        Task::Variable => fetch(stack, bound, s, slot),
        Task::Malloc => allot(heap, stack, script, s, datum),
        Task::Acts(o) => join(heap, stack, script.terms, s, o),
        Task::Bind => bind(bound, stack, script.terms.limit, s),
        Task::Unbind => unbind(s),
        Task::Stop => stop(s),
        _ => apply(heap, script, s, task, slot, datum),
    }
}
