// Numbers of an image that most often have one byte.
ghost use Rattle.std.specs.Prelude.{◌≡◌};
ghost use Rattle.calculus.specs.declared.Fault.TheVariants.{Unknown};
ghost use Rattle.image.specs.Answers.{told};
ghost use Rattle.image.specs.Parsing.{number, below};

use calculus::{Fault, Refusal};
use image::read_limited;
use numbers::Read;

// The number at `at`: one byte is tried first.
#[inline(always)]
#[tactic(auto, using(crate::proofs::OneByte::one_byte))]
pub fn number_at(image: &[u8], at: usize) -> Result<Read<u64>, Refusal>
    ensures { result ≡ told (number image.now at) }
{
    match image.get(at) {
        Some(byte) if *byte < 128 => Ok(Read {
            value: u64::from(*byte),
            next: at + 1,
        }),
        _ => read_limited(image, at),
    }
}

// The number at `at`, below `limit`; another is unknown.
#[inline(always)]
#[tactic(auto, unfolding(image::specs::Parsing::below))]
pub fn below_at(image: &[u8], at: usize, limit: u64) -> Result<Read<u64>, Refusal>
    ensures { result ≡ told (below Unknown limit image.now at) }
{
    let read = number_at(image, at)?;
    if read.value < limit {
        Ok(read)
    } else {
        Err(Refusal {
            fault: Fault::Unknown,
            place: at,
        })
    }
}
