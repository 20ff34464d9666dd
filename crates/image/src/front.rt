// All that stands before the expression, the image's length judged before anything is read.
ghost use Rattle.std.specs.Prelude.{◌≡◌};
ghost use Rattle.image.specs.Answers.{told};
ghost use Rattle.image.specs.Content.{format_one};
ghost use Rattle.image.specs.Image.{read_format};
ghost use Rattle.image.specs.Tabling.{fronted, front_into};

use crate::heap_cells::read_placed;
use crate::number::read_limited;
use crate::tables::read_tables;
use crate::{Format, Opening};
use calculus::{Fault, Refusal};
use numbers::Read;

// The format, the tables and the cells of the image, over a heap of `words` words, into the lent tables.
#[tactic(auto, using(crate::proofs::AnswerBounds::tables_small), unfolding(crate::specs::Tabling::front_into))]
pub fn read_front(
    structs: &mut [u64],
    types: &mut [u64],
    cells: &mut [u64],
    image: &[u8],
    words: u64,
) -> Result<Read<Opening>, Refusal>
    ensures { fronted result structs.new types.new cells.new ≡ front_into words image.now structs.old types.old cells.old }
{
    if 16384 < image.len() {
        return Err(Refusal {
            fault: Fault::Limit,
            place: 0,
        });
    }
    let format = read_format(image)?;
    let counts = read_tables(structs, types, image, format.next)?;
    let known = counts.value.types + 1;
    let placed = read_placed(cells, image, counts.next, words, types, known)?;
    Ok(Read {
        value: Opening {
            format: format.value,
            counts: counts.value,
            cells: placed.value,
        },
        next: placed.next,
    })
}

// The format, by the image's first number.
#[tactic(auto, unfolding(crate::specs::Image::read_format))]
fn read_format(image: &[u8]) -> Result<Read<Format>, Refusal>
    ensures { result ≡ told (read_format image.now) }
{
    let number = read_limited(image, 0)?;
    if number.value == 1 {
        Ok(Read {
            value: format_one(),
            next: number.next,
        })
    } else {
        Err(Refusal {
            fault: Fault::Format,
            place: 0,
        })
    }
}

// Format 1.
fn format_one() -> Format
    ensures { result ≡ format_one }
{
    Format {
        width: 32,
        marked: false,
        expressions: 1,
    }
}
