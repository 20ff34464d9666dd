// The reading of an answer: "a Value gives its number as the reading. Every other end gives none."
ghost use Rattle.std.specs.Prelude.{◌≡◌};
ghost use Rattle.answers.specs.Readings.{reading_of};

use crate::Answer;
use calculus::End;

// The reading that an answer gives.
pub fn reading_of(answer: Answer) -> Option<u64>
    ensures { result ≡ reading_of answer }
{
    match answer.ok()?.end {
        End::Value(cell) => Some(cell.value),
        _ => None,
    }
}
