// The answer of the recursive call, as one number.
ghost use Rattle.std.specs.Prelude.{◌^◌, ◌<◌, ◌≡◌, IfErr};
ghost use Rattle.reader.specs.Cursors.{crossed, fault_of};

use crate::cursor::Cursor;
use calculus::{Fault, Refusal};
use std::marker::Model;

// Where reading stands then, or a refusal. As a Result it goes through memory, and a reading took 1.2 times as long (1.1 times the instructions).
pub struct PackedAnswer {
    number: u64,
}

impl Model for PackedAnswer {
    ghost use Rattle.std.specs.Prelude.{Result};
    ghost use Rattle.calculus.specs.declared.Refusal.{Refusal};
    ghost use Rattle.reader.specs.Cursors.{ReadingAt};

    ghost Value = { Result ReadingAt Refusal };

    ghost use Rattle.reader.specs.Cursors.{answer_in};

    ghost view = { λ answer. answer_in answer.number };
}

impl PackedAnswer {
    #[inline(always)]
    pub fn into_result(self) -> Result<Cursor, Refusal>
        ensures is { result ≡ self }
        ensures small { IfErr result (λ q. q.place < 2 ^ 38) }
    {
        let PackedAnswer { number } = self;
        if number < 9223372036854775808 {
            return Ok(number.into());
        }
        Err(Refusal {
            fault: fault_of(number / 274877906944 % 16),
            place: (number % 274877906944) as usize,
        })
    }
}

// A place that doesn't fit its bits is cut to them.
impl From<Result<Cursor, Refusal>> for PackedAnswer {
    ghost from_gives = { λ reading answer. answer ≡ crossed reading };

    #[inline(always)]
    #[tactic(auto, using(crate::proofs::Cursors::fault_below), unfolding(crate::specs::Cursors::crossed))]
    fn from(reading: Result<Cursor, Refusal>) -> PackedAnswer {
        match reading {
            Ok(cursor) => PackedAnswer {
                number: cursor.into(),
            },
            Err(refusal) => {
                let fault = u64::from(refusal.fault);
                let place = refusal.place % 274877906944;
                PackedAnswer {
                    number: 9223372036854775808 + 274877906944 * fault + place as u64,
                }
            }
        }
    }
}

// The fault with a number, and the last one where none has it: by hand, since no other place reads a fault off a number.
#[tactic(auto, using(crate::proofs::Cursors::no_fault), unfolding(crate::specs::Cursors::fault_of))]
fn fault_of(number: u64) -> Fault
    ensures { result ≡ fault_of number }
{
    match number {
        1 => Fault::Ends,
        2 => Fault::Unfit,
        3 => Fault::Format,
        4 => Fault::Limit,
        5 => Fault::Unknown,
        6 => Fault::Repeat,
        7 => Fault::Beyond,
        8 => Fault::Behind,
        9 => Fault::NoRule,
        _ => Fault::IllTyped,
    }
}
