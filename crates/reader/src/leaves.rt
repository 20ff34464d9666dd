// Nodes without parts, and what stands before the part of a node with one: numbers behind a node's code, into its row.
ghost use Rattle.std.specs.Prelude.{◌≡◌, Ok};
ghost use Rattle.image.specs.Answers.{told, with_next};
ghost use Rattle.image.specs.Filled.{filled};
ghost use Rattle.reader.specs.Reads.{row_put, literal_rows, variable_rows, malloc_rows, part_line, one_line, row_head};

use crate::around::Around;
use crate::bytes::{below_at, number_at};
use crate::cursor::Cursor;
use crate::{PartLine, RowReader};
use calculus::{Fault, Operation, Refusal};
use cells::Mode;
use image::read_target;
use numbers::Read;
use tables::{RowHead, Task, put_row};

// The head of the row of the node at the cursor, without slot and left part.
#[inline(always)]
pub fn node_head(task: Task, around: Around, cursor: Cursor) -> RowHead
    ensures { result ≡ row_head task around.inside 0 0 cursor }
{
    RowHead {
        task,
        inside: around.is_inside(),
        slot: 0,
        left: 0,
        node: cursor.nodes(),
    }
}

// A row behind the rows up to `end`: where reading stands then.
#[inline(always)]
pub fn write_row(rows: &mut [u64], end: Cursor, head: RowHead, datum: u64) -> Cursor
    ensures { filled (Ok result) rows.new ≡ row_put end head datum rows.old }
{
    put_row(rows, end.rows(), u64::from(head), datum);
    end.behind_row()
}

impl RowReader<'_> {
    // A literal: its value and its word type are at `at`.
    #[inline(always)]
    #[tactic(auto, unfolding(crate::specs::Reads::literal_rows))]
    pub fn read_literal(
        &self,
        rows: &mut [u64],
        within: Around,
        cursor: Cursor,
        at: usize,
    ) -> Result<Cursor, Refusal>
        ensures { filled result rows.new ≡ literal_rows self.now.image.now self.now.known within.inside cursor at rows.old }
    {
        let value = number_at(self.image, at)?;
        let number = below_at(self.image, value.next, self.known)?;
        let head = RowHead {
            slot: number.value as usize,
            ..node_head(Task::Literal, within, cursor)
        };
        let end = cursor.behind_head(number.next);
        Ok(write_row(rows, end, head, value.value))
    }

    // A variable: how many lets out it is bound is at `at`.
    #[inline(always)]
    #[tactic(auto, unfolding(crate::specs::Reads::variable_rows))]
    pub fn read_variable(
        &self,
        rows: &mut [u64],
        within: Around,
        cursor: Cursor,
        at: usize,
    ) -> Result<Cursor, Refusal>
        ensures { filled result rows.new ≡ variable_rows self.now.image.now within.lets within.inside cursor at rows.old }
    {
        let out = below_at(self.image, at, within.lets())?;
        let head = RowHead {
            slot: out.value as usize,
            ..node_head(Task::Variable, within, cursor)
        };
        let end = cursor.behind_head(out.next);
        Ok(write_row(rows, end, head, 0))
    }

    // A malloc: its target is at `at`.
    #[tactic(auto, unfolding(crate::specs::Reads::malloc_rows))]
    pub fn read_malloc(
        &self,
        rows: &mut [u64],
        within: Around,
        cursor: Cursor,
        at: usize,
    ) -> Result<Cursor, Refusal>
        ensures { filled result rows.new
            ≡ malloc_rows self.now.image.now self.now.known self.now.structs within.inside cursor at rows.old }
    {
        let target = read_target(self.image, at, self.structs, self.known, Mode::Checked)?;
        let head = node_head(Task::Malloc, within, cursor);
        let end = cursor.behind_head(target.next);
        Ok(write_row(rows, end, head, target.value))
    }

    // What stands at `at`, between the code of a node with one part, which is at `first`, and its part. No other node has the code.
    #[inline(always)]
    #[tactic(auto, unfolding(crate::specs::Reads::part_line))]
    pub fn read_line(
        &self,
        within: Around,
        first: usize,
        operation: Operation,
        at: usize,
    ) -> Result<Read<PartLine>, Refusal>
        ensures { result ≡ told (part_line self.now.image.now self.now.known within.inside first operation at) }
    {
        let inside = within.is_inside();
        match operation {
            Operation::Unchecked => Ok(line(Task::Unchecked, 0, 0, true, at)),
            Operation::Cast => {
                let number = below_at(self.image, at, self.known)?;
                let slot = number.value as usize;
                Ok(line(Task::Cast, slot, 0, inside, number.next))
            }
            Operation::Read => Ok(line(Task::Read, 0, 0, inside, at)),
            Operation::Field => {
                let field = number_at(self.image, at)?;
                Ok(line(Task::Field, 0, field.value, inside, field.next))
            }
            _ => Err(Refusal {
                fault: Fault::Unknown,
                place: first,
            }),
        }
    }
}

// Such a line, and the offset behind it.
#[inline(always)]
fn line(task: Task, slot: usize, datum: u64, inside: bool, next: usize) -> Read<PartLine>
    ensures { result ≡ with_next (one_line task slot datum inside) next }
{
    let value = PartLine {
        task,
        slot,
        datum,
        inside,
    };
    Read { value, next }
}
