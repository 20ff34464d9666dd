// The one place where a node's code is looked at, and the numbers of faults and halts.
ghost use Rattle.std.specs.Prelude.{◌≡◌};
ghost use Rattle.calculus.specs.Operations.{operation_of};
ghost use Rattle.calculus.specs.Answers.{fault_number, halt_number};

use crate::{Act, Fault, Halt, Operation};

// What a node of this code does.
impl From<u64> for Operation {
    ghost from_gives = { λ code operation. operation ≡ operation_of code };

    #[tactic(auto, using(crate::proofs::Decoding::unknown_code), unfolding(crate::specs::Operations::operation_of))]
    fn from(code: u64) -> Operation {
        match code {
            0 => Operation::Literal,
            1 => Operation::Variable,
            2 => Operation::Let,
            3 => Operation::Malloc,
            4 => Operation::Unchecked,
            5 => Operation::Cast,
            6 => Operation::Read,
            7 => Operation::Acts(Act::Assign),
            8 => Operation::Acts(Act::Sum),
            9 => Operation::Field,
            _ => Operation::Unknown,
        }
    }
}

// The number of a fault, 1 to 10.
impl From<Fault> for u64 {
    ghost from_gives = { λ fault number. number ≡ fault_number fault };

    fn from(fault: Fault) -> u64 {
        fault as u64
    }
}

// The number of the end that a halt is: 1 null, 2 bounds, 3 room.
impl From<Halt> for u64 {
    ghost from_gives = { λ halt number. number ≡ halt_number halt };

    fn from(halt: Halt) -> u64 {
        halt as u64
    }
}
