// An answer as six numbers in lent memory, for a host in another language.
ghost use Rattle.std.specs.Prelude.{◌≡◌};
ghost use Rattle.answers.specs.Out.{out_numbers, numbered};

use crate::Answer;
use crate::ends::{end_kind, end_number, end_value};
use calculus::{Outcome, Refusal};

// Writes the answer's six numbers to the front of `out` and answers true; where `out` has fewer than six, it answers false and
// nothing changes.
pub fn write_numbers(out: &mut [u64], answer: Answer) -> bool
    ensures { record { done = result; out = out.new } ≡ numbered out.old answer }
{
    if out.len() < 6 {
        return false;
    }
    out[..6].copy_from_slice(&six_numbers(answer));
    true
}

#[tactic(auto, unfolding(crate::specs::Out::out_numbers))]
fn six_numbers(answer: Answer) -> [u64; 6]
    ensures { result ≡ out_numbers answer }
{
    match answer {
        Err(Refusal { fault, place }) => [0, u64::from(fault), place as u64, 0, 0, 0],
        Ok(Outcome { end, steps, first }) => {
            let code = u64::from(end_kind(end));
            [1, end_number(end), end_value(end), code, steps, first]
        }
    }
}
