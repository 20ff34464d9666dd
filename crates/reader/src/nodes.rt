// The nodes of an expression, by recursion on their parts: the depth that is left falls at every part.
// What crosses the call is one number each way: with structs of fields and a Result a reading took twice as long (1.6 times the instructions).
ghost use Rattle.std.specs.Prelude.{◌≡◌};
ghost use Rattle.image.specs.Filled.{filled};
ghost use Rattle.reader.specs.Reads.{node_rows, part_rows, act_rows, let_rows, one_rows};

use crate::answer::PackedAnswer;
use crate::around::Around;
use crate::bytes::number_at;
use crate::cursor::Cursor;
use crate::leaves::{node_head, write_row};
use crate::{PartLine, RowReader};
use calculus::{Act, Fault, Operation, Refusal};
use tables::{RowHead, Task};

impl RowReader<'_> {
    // The node at the cursor with its parts: where reading stands behind it, or its refusal. What it calls is inlined here, so that no Result
    // goes through memory.
    #[cycle(read_nodes)]
    #[inline(never)]
    pub fn read_part(&self, rows: &mut [u64], around: Around, cursor: Cursor) -> PackedAnswer
        ensures { filled result rows.new
            ≡ part_rows self.now.image.now self.now.known self.now.structs around.depth around.lets around.inside cursor rows.old }
    {
        match self.read_short(rows, around, cursor) {
            Some(end) => Ok(end).into(),
            None => self.read_node(rows, around, cursor).into(),
        }
    }

    // The same before the answer crosses the call. A fault of the code's own number goes first, then one level or one node too many.
    #[cycle(read_nodes)]
    #[inline(always)]
    #[tactic(auto, unfolding(crate::specs::Reads::node_rows))]
    fn read_node(&self, rows: &mut [u64], around: Around, cursor: Cursor) -> Result<Cursor, Refusal>
        ensures { filled result rows.new
            ≡ node_rows self.now.image.now self.now.known self.now.structs around.depth around.lets around.inside cursor rows.old }
    {
        let place = cursor.offset();
        let code = number_at(self.image, place)?;
        let limit = Refusal {
            fault: Fault::Limit,
            place,
        };
        let within = around.deeper().ok_or(limit)?;
        if 2048 <= cursor.nodes() {
            return Err(limit);
        }
        let operation = Operation::from(code.value);
        match operation {
            Operation::Literal => self.read_literal(rows, within, cursor, code.next),
            Operation::Variable => self.read_variable(rows, within, cursor, code.next),
            Operation::Acts(act) => self.read_act(rows, within, cursor, code.next, act),
            Operation::Let => self.read_let(rows, within, cursor, code.next),
            Operation::Malloc => self.read_malloc(rows, within, cursor, code.next),
            _ => self.read_one(rows, within, cursor, code.next, operation),
        }
    }

    // A node with one part, from behind its code on.
    #[cycle(read_nodes)]
    #[inline(always)]
    #[tactic(auto, unfolding(crate::specs::Reads::one_rows))]
    fn read_one(
        &self,
        rows: &mut [u64],
        within: Around,
        cursor: Cursor,
        at: usize,
        operation: Operation,
    ) -> Result<Cursor, Refusal>
        ensures { filled result rows.new
            ≡ one_rows self.now.image.now self.now.known (part_rows self.now.image.now self.now.known self.now.structs within.depth)
            within.lets within.inside cursor operation at rows.old }
    {
        let line = self.read_line(within, cursor.offset(), operation, at)?;
        let PartLine {
            task,
            slot,
            datum,
            inside,
        } = line.value;
        let start = cursor.behind_head(line.next);
        let around = within.with_inside(inside);
        let end = self.read_part(rows, around, start).into_result()?;
        let head = RowHead {
            slot,
            ..node_head(task, within, cursor)
        };
        Ok(write_row(rows, end, head, datum))
    }

    // An act, from behind its code on. Its row tells where its left part's rows end.
    #[cycle(read_nodes)]
    #[inline(always)]
    #[tactic(auto, unfolding(crate::specs::Reads::act_rows))]
    fn read_act(
        &self,
        rows: &mut [u64],
        within: Around,
        cursor: Cursor,
        at: usize,
        act: Act,
    ) -> Result<Cursor, Refusal>
        ensures { filled result rows.new
            ≡ act_rows (part_rows self.now.image.now self.now.known self.now.structs within.depth)
            within.lets within.inside cursor act at rows.old }
    {
        let start = cursor.behind_head(at);
        let left = self.read_part(rows, within, start).into_result()?;
        let end = self.read_part(rows, within, left).into_result()?;
        let head = RowHead {
            left: left.rows(),
            ..node_head(Task::Acts(act), within, cursor)
        };
        Ok(write_row(rows, end, head, 0))
    }

    // A let, from behind its code on: its Bind row stands behind its bound part's rows, and its Unbind row, which tells the other, behind its
    // body's.
    #[cycle(read_nodes)]
    #[inline(always)]
    #[tactic(auto, unfolding(crate::specs::Reads::let_rows))]
    fn read_let(
        &self,
        rows: &mut [u64],
        within: Around,
        cursor: Cursor,
        at: usize,
    ) -> Result<Cursor, Refusal>
        ensures { filled result rows.new
            ≡ let_rows (part_rows self.now.image.now self.now.known self.now.structs within.depth)
            within.lets within.inside cursor at rows.old }
    {
        let start = cursor.behind_head(at);
        let bound = self.read_part(rows, within, start).into_result()?;
        let body = write_row(rows, bound, node_head(Task::Bind, within, cursor), 0);
        let around = within.under_let();
        let end = self.read_part(rows, around, body).into_result()?;
        let head = RowHead {
            left: bound.rows(),
            ..node_head(Task::Unbind, within, cursor)
        };
        Ok(write_row(rows, end, head, 0))
    }
}
