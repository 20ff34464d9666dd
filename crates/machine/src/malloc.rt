// malloc: whether there is room, and its step.
ghost use Rattle.std.specs.Prelude.{◌≡◌, ◌^◌, ◌<◌};
ghost use Rattle.machine.specs.Malloc.{size_in, room_taken, room_at};
ghost use Rattle.machine.specs.States.{leaving};

use crate::{NodeScript, State, Turn};
use calculus::Halt;
use cells::lowest_run;
use std::ops::ControlFlow;
use tables::{field_count, number_of, tag_of};
use yields::{Hint, start, zero};

// Room for the target of a checked pointer: the lowest run of words that is long enough.
#[tactic(auto, unfolding(crate::specs::Malloc::room_for))]
pub fn malloc(heap: &mut [u64], script: &NodeScript, s: State, code: u64) -> Turn
    requires { s.steps < 2 ^ 63 }
    ensures { leaving result heap.new ≡ room_at script.now.structs.now script.now.types.now script.now.terms heap.old s code }
{
    let terms = script.terms;
    let size = size_of(script.structs, code);
    if size == 0 {
        return s.stuck();
    }
    match lowest_run(heap, size, start(s.hint, size, terms.low), terms.high) {
        Some(address) => take(heap, script, s, code, size, address),
        None => s.halt(terms.limit, Halt::Room),
    }
}

// How many words the target of a pointer with this code covers; an array's count is all that stands above its number.
#[tactic(auto, unfolding(crate::specs::Malloc::size_in))]
fn size_of(structs: &[u64], code: u64) -> usize
    ensures { result ≡ size_in structs.now code }
{
    let tag = tag_of(code);
    match tag {
        0 => 0,
        1 => 1,
        2 => field_count(structs, number_of(code)),
        _ => (code / 2048) as usize,
    }
}

// The run found is taken, a step later: no run of that size starts lower from now on.
#[tactic(auto, unfolding(crate::specs::Malloc::room_taken))]
fn take(
    heap: &mut [u64],
    script: &NodeScript,
    s: State,
    code: u64,
    size: usize,
    address: usize,
) -> Turn
    ensures { leaving result heap.new
        ≡ room_taken script.now.structs.now script.now.types.now script.now.terms.limit heap.old s code size address }
{
    let taken = State {
        hint: Hint {
            size,
            from: address,
        },
        ..s.with_value(address as u64, code)
    };
    let next = taken.step_within(script.terms.limit)?;
    zero(heap, script.structs, script.types, code, size, address);
    ControlFlow::Continue(next)
}
