// A number of the image, and a number below a limit: faults 1 and 2, and the fault that is named for a number too large.
ghost use Rattle.std.specs.Prelude.{◌≡◌};
ghost use Rattle.image.specs.Parsing.{number, below};
ghost use Rattle.image.specs.Answers.{told};

use calculus::{Fault, Refusal};
use numbers::{Read, read_number};

// The number at `at`.
#[tactic(auto, unfolding(crate::specs::Parsing::number))]
pub fn read_limited(image: &[u8], at: usize) -> Result<Read<u64>, Refusal>
    ensures { result ≡ told (number image.now at) }
{
    Ok(read_number(image, at)?)
}

// The number at `at`, below `limit`; another is this fault, at its first byte.
#[tactic(auto, unfolding(crate::specs::Parsing::below))]
pub fn read_below(image: &[u8], at: usize, limit: u64, fault: Fault) -> Result<Read<u64>, Refusal>
    ensures { result ≡ told (below fault limit image.now at) }
{
    let read = read_limited(image, at)?;
    if read.value < limit {
        Ok(read)
    } else {
        Err(Refusal { fault, place: at })
    }
}
