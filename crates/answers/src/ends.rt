// Document 01's number for each fault, and its number and values for each end.
ghost use Rattle.std.specs.Prelude.{◌≡◌};
ghost use Rattle.calculus.specs.Answers.{fault_number, end_number, end_value, end_kind};

use calculus::{End, Fault};
use cells::Kind;

// The number of a fault, 1 to 10: a line over `From`, which stays since the page of promises names it.
pub fn fault_number(fault: Fault) -> u64
    ensures { result ≡ fault_number fault }
{
    fault.into()
}

// The number of an end: 0 value, a halt's number, 4 stuck, 5 more.
pub fn end_number(end: End) -> u64
    ensures { result ≡ end_number end }
{
    match end {
        End::Value(_) => 0,
        End::Halted(halt) => u64::from(halt),
        End::Stuck => 4,
        End::More => 5,
    }
}

// The number of a Value, 0 for every other end.
pub fn end_value(end: End) -> u64
    ensures { result ≡ end_value end }
{
    match end {
        End::Value(cell) => cell.value,
        _ => 0,
    }
}

// The type of a Value, int for every other end.
pub fn end_kind(end: End) -> Kind
    ensures { result ≡ end_kind end }
{
    match end {
        End::Value(cell) => cell.kind,
        _ => Kind::Int,
    }
}
