// The cell table: for each heap cell its address, its value and the code of its word type, at a stride of 3.
ghost use Rattle.std.specs.Prelude.{◌+◌, ◌≤◌, ◌≡◌};
ghost use Rattle.image.specs.Cells.{read_address};
ghost use Rattle.image.specs.Answers.{told};
ghost use Rattle.image.specs.Filled.{filled};
ghost use Rattle.image.specs.Tabling.{read_row, cells_into, placed_into};

use crate::CellRow;
use crate::lent_rows::put_row;
use crate::number::{read_below, read_limited};
use calculus::{Fault, Refusal};
use cells::word;
use numbers::Read;

// What is known while the cells are read: the image, how many words the heap has, and the codes of the word types, which are the first
// `known` of `types`.
#[derive(Clone, Copy)]
struct CellReader<'a> {
    image: &'a [u8],
    words: u64,
    types: &'a [u64],
    known: u64,
}

// The count of cells at `at`, and the cells behind it, in a heap of `words` words: the count, and the offset behind them.
#[tactic(auto, using(crate::proofs::Numbers::below_small), unfolding(crate::specs::Tabling::placed_into))]
pub fn read_placed(
    cells: &mut [u64],
    image: &[u8],
    at: usize,
    words: u64,
    types: &[u64],
    known: u64,
) -> Result<Read<u64>, Refusal>
    ensures { filled result cells.new ≡ placed_into image.now words types.now known at cells.old }
{
    let count = read_below(image, at, 4097, Fault::Limit)?;
    let reader = CellReader {
        image,
        words,
        types,
        known,
    };
    let next = reader.read_cells(cells, count.next, count.value as usize)?;
    Ok(Read { next, ..count })
}

impl CellReader<'_> {
    // `count` cells from `first` on: the offset behind them.
    #[tactic(auto, using(crate::proofs::Turns::cells_turn, crate::proofs::AnswerBounds::row_small), unfolding(crate::specs::Tabling::cells_into))]
    fn read_cells(&self, cells: &mut [u64], first: usize, count: usize) -> Result<usize, Refusal>
        requires { count ≤ 4096 }
        ensures { filled result cells.new ≡ cells_into self.now.image.now self.now.words self.now.types.now self.now.known count 0 0 first cells.old }
    {
        let mut before = 0;
        let mut at = first;
        for i in 0..count {
            let read = self.read_cell(at, before)?;
            let cell = read.value;
            let code = word(self.types, cell.number as usize);
            put_row(cells, i, [cell.address, cell.value, code]);
            before = cell.address;
            at = read.next;
        }
        Ok(at)
    }

    // The cell at `at` behind the address `before`.
    #[tactic(auto, unfolding(crate::specs::Tabling::read_row))]
    fn read_cell(&self, at: usize, before: u64) -> Result<Read<CellRow>, Refusal>
        requires { before ≤ self.now.words }
        ensures { result ≡ told (read_row self.now.image.now self.now.words self.now.known before at) }
    {
        let address = self.read_address(at, before)?;
        let value = read_limited(self.image, address.next)?;
        let number = read_below(self.image, value.next, self.known, Fault::Unknown)?;
        Ok(Read {
            value: CellRow {
                address: address.value,
                value: value.value,
                number: number.value,
            },
            next: number.next,
        })
    }

    // The address behind `before` by the gap at `at`.
    #[tactic(auto, unfolding(crate::specs::Cells::read_address))]
    fn read_address(&self, at: usize, before: u64) -> Result<Read<u64>, Refusal>
        requires { before ≤ self.now.words }
        ensures { result ≡ told (read_address self.now.image.now self.now.words before at) }
    {
        let gap = read_limited(self.image, at)?;
        if gap.value == 0 {
            return Err(Refusal {
                fault: Fault::Repeat,
                place: at,
            });
        }
        if self.words - before < gap.value {
            return Err(Refusal {
                fault: Fault::Beyond,
                place: at,
            });
        }
        Ok(Read {
            value: before + gap.value,
            ..gap
        })
    }
}
