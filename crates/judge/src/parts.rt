// How the parts of a node are judged, by what the node does.
ghost use Rattle.std.specs.Prelude.{◌+◌, ◌<◌, ◌^◌, ◌≡◌};
ghost use Rattle.judge.specs.Parts.{parts_of, is_access, on_wholes, inner_mode, inner_lets, bound_with};

use calculus::{Act, Operation};
use cells::{Mode, put};

// How many parts a node has.
pub fn parts(operation: Operation) -> u64
    ensures { result ≡ parts_of operation }
{
    match operation {
        Operation::Let | Operation::Acts(_) => 2,
        Operation::Unchecked | Operation::Cast | Operation::Read | Operation::Field => 1,
        Operation::Literal | Operation::Variable | Operation::Malloc | Operation::Unknown => 0,
    }
}

// Whether a node accesses through its first part.
pub fn is_access(operation: Operation) -> bool
    ensures { result ≡ is_access operation }
{
    matches!(operation, Operation::Read | Operation::Acts(Act::Assign))
}

// Whether a node acts on two parts that are judged each as a whole: then it may differ as the pointer of an access.
pub fn on_wholes(operation: Operation) -> bool
    ensures { result ≡ on_wholes operation }
{
    matches!(operation, Operation::Acts(Act::Sum))
}

// The mode of a node's first part.
pub fn inner_mode(operation: Operation, mode: Mode) -> Mode
    ensures { result ≡ inner_mode operation mode }
{
    if operation == Operation::Unchecked {
        Mode::Unchecked
    } else {
        mode
    }
}

// How many lets are around a node's second part.
pub fn inner_lets(operation: Operation, lets: usize) -> usize
    requires { lets + 1 < 2 ^ 64 }
    ensures { result ≡ inner_lets operation lets }
{
    if operation == Operation::Let {
        lets + 1
    } else {
        lets
    }
}

// The kinds of bound variables around a node's second part, whose first part has type x.
pub fn bind_kind(bound: &mut [u64], operation: Operation, lets: usize, x: u64)
    ensures { bound.new ≡ bound_with operation lets x bound.old }
{
    if operation == Operation::Let {
        put(bound, lets, x);
    }
}
