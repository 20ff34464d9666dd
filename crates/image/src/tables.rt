// The counts of structs and pointer types, and the tables of both.
ghost use Rattle.std.specs.Prelude.{◌+◌, ◌≡◌};
ghost use Rattle.image.specs.Answers.{told};
ghost use Rattle.image.specs.Tabling.{counts_at, tabled, tables_into};

use crate::TableCounts;
use crate::number::read_below;
use crate::structs::read_structs;
use crate::types::read_types;
use calculus::{Fault, Refusal};
use cells::put;
use numbers::Read;

// The counts at `at` and the tables behind them, into the lent tables.
#[tactic(auto, using(crate::proofs::AnswerBounds::counts_small), unfolding(crate::specs::Tabling::tables_into))]
pub fn read_tables(
    structs: &mut [u64],
    types: &mut [u64],
    image: &[u8],
    at: usize,
) -> Result<Read<TableCounts>, Refusal>
    ensures { tabled result structs.new types.new ≡ tables_into image.now at structs.old types.old }
{
    let read = read_counts(image, at)?;
    let counts = read.value;
    let behind = read_structs(structs, image, read.next, counts.types + 1, counts.structs)?;
    put(types, 0, 1);
    let next = read_types(types, image, behind, counts.structs, counts.types)?;
    Ok(Read {
        value: counts,
        next,
    })
}

// The two counts at `at`.
#[tactic(auto, unfolding(crate::specs::Tabling::counts_at))]
fn read_counts(image: &[u8], at: usize) -> Result<Read<TableCounts>, Refusal>
    ensures { result ≡ told (counts_at image.now at) }
{
    let structs = read_below(image, at, 33, Fault::Limit)?;
    let types = read_below(image, structs.next, 256, Fault::Limit)?;
    Ok(Read {
        value: TableCounts {
            structs: structs.value,
            types: types.value,
        },
        next: types.next,
    })
}
