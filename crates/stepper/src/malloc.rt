// malloc: whether there is room, and its step.
ghost use Rattle.std.specs.Prelude.{◌≡◌};
ghost use Rattle.stepper.specs.Malloc.{room_takes, room_gives};
ghost use Rattle.stepper.specs.States.{changed};

use crate::{RowScript, StepState, StepTurn};
use calculus::Halt;
use cells::lowest_run;
use tables::size_of;
use yields::{start, zero};

// Room for the target of a checked pointer: the lowest run of words that is long enough. The pointer's place on the stack is counted.
#[tactic(auto, unfolding(crate::specs::Malloc::room_sized))]
pub fn malloc(heap: &mut [u64], script: &RowScript, s: StepState, code: u64) -> StepTurn
    ensures { changed result heap.new ≡ room_gives script.now.structs.now script.now.types.now script.now.terms heap.old s code }
{
    let size = size_of(script.structs, code);
    if size == 0 {
        return s.stuck();
    }
    let terms = script.terms;
    match lowest_run(heap, size, start(s.hint, size, terms.low), terms.high) {
        Some(address) => take(heap, script, s, code, size, address),
        None => s.halt(terms.limit, Halt::Room),
    }
}

// The run found is taken, a step later: no run of that size starts lower from now on.
#[tactic(auto, unfolding(crate::specs::Malloc::room_takes))]
fn take(
    heap: &mut [u64],
    script: &RowScript,
    s: StepState,
    code: u64,
    size: usize,
    address: usize,
) -> StepTurn
    ensures { changed result heap.new
        ≡ room_takes script.now.structs.now script.now.types.now script.now.terms.limit heap.old s code size address }
{
    if script.terms.limit <= s.steps {
        return s.more();
    }
    zero(heap, script.structs, script.types, code, size, address);
    StepTurn::Steps(
        s.topped(address as u64, code)
            .hinted(size, address)
            .counted(),
    )
}
