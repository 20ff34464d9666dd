// Leaves whose numbers have one byte each, which most have: a literal or a variable is then read by its bytes alone.
// Read as other nodes are, expressions of many such leaves took a fifth longer.
ghost use Rattle.std.specs.Prelude.{◌<◌, ◌≡◌, Ok, MatchOption, true};
ghost use Rattle.image.specs.Filled.{filled};
ghost use Rattle.reader.specs.Reads.{node_rows};

use crate::RowReader;
use crate::around::Around;
use crate::cursor::Cursor;
use crate::leaves::{node_head, write_row};
use tables::{RowHead, Task};

impl RowReader<'_> {
    // Such a leaf, if one is at the cursor, with known numbers and with room for it.
    #[inline(always)]
    #[tactic(auto, using(crate::proofs::ShortLeaves::short_literal, crate::proofs::ShortLeaves::short_variable))]
    pub fn read_short(&self, rows: &mut [u64], around: Around, cursor: Cursor) -> Option<Cursor>
        ensures { MatchOption result (rows.new ≡ rows.old) (λ end. filled (Ok end) rows.new
            ≡ node_rows self.now.image.now self.now.known self.now.structs around.depth around.lets around.inside cursor rows.old) }
    {
        let at = cursor.offset();
        let Some([code, first, second, ..]) = self.image.get(at..) else {
            return None;
        };
        match *code {
            0
                if *first < 128
                    && *second < 128
                    && u64::from(*second) < self.known
                    && has_room(around, cursor) => {
                let head = RowHead {
                    slot: usize::from(*second),
                    ..node_head(Task::Literal, around, cursor)
                };
                let end = cursor.behind_head(at + 3);
                Some(write_row(rows, end, head, u64::from(*first)))
            }
            1 if *first < 128 && u64::from(*first) < around.lets() && has_room(around, cursor) => {
                let head = RowHead {
                    slot: usize::from(*first),
                    ..node_head(Task::Variable, around, cursor)
                };
                let end = cursor.behind_head(at + 2);
                Some(write_row(rows, end, head, 0))
            }
            _ => None,
        }
    }
}

// One level and one node more may be read.
#[inline(always)]
fn has_room(around: Around, cursor: Cursor) -> bool
    ensures { result ≡ true → (0 < around.depth) × (cursor.nodes < 2048) }
{
    around.deeper().is_some() && cursor.nodes() < 2048
}
