// The whole expression, into lent rows.
ghost use Rattle.std.specs.Prelude.{◌^◌, ◌<◌, ◌≡◌, Ok};
ghost use Rattle.image.specs.Filled.{filled};
ghost use Rattle.reader.specs.Reads.{expr_ended, most_rows};
ghost use Rattle.reader.specs.Told.{RowsRead};

use crate::around::Around;
use crate::cursor::Cursor;
use crate::{Expression, NotRead, RowReader};
use calculus::{Fault, Refusal};
use tables::{RowHead, Task, put_row};

// The expression that starts at `at` of the image, where the word types are those below `known`, int among them, and the structs those
// below `structs`. It is read in the part of the image that starts there, and its places are carried back.
pub fn read_rows(
    rows: &mut [u64],
    image: &[u8],
    known: usize,
    structs: usize,
    at: usize,
) -> Result<Expression, NotRead>
    ensures { RowsRead image.now known structs at rows.old result rows.new }
{
    if 16384 < image.len() {
        let fault = Fault::Limit;
        return Err(Refusal { fault, place: 0 }.into());
    }
    if image.len() < at {
        let fault = Fault::Ends;
        return Err(Refusal { fault, place: at }.into());
    }
    if rows.len() / 2 < most_rows(image.len() - at) {
        return Err(NotRead::Short);
    }
    let reader = RowReader {
        image: &image[at..],
        known: known as u64,
        structs: structs as u64,
    };
    let answer = reader.read_part(rows, Around::outermost(), Cursor::start());
    match answer.into_result() {
        Ok(end) => Ok(end_rows(rows, at, end)),
        Err(refusal) => {
            let place = at + refusal.place;
            Err(Refusal { place, ..refusal }.into())
        }
    }
}

// How many rows an expression in so many bytes may take: a node takes a byte at least, there are at most 2,048 nodes, and each takes at
// most two rows, the one that stops counted.
fn most_rows(bytes: usize) -> usize
    ensures { result ≡ most_rows bytes }
{
    2 * bytes.min(2048)
}

// Behind the expression, whose places are told from `at` on: the row that stops.
fn end_rows(rows: &mut [u64], at: usize, end: Cursor) -> Expression
    requires { at < 2 ^ 32 }
    ensures { filled (Ok result) rows.new ≡ expr_ended at end rows.old }
{
    let head = RowHead {
        task: Task::Stop,
        inside: false,
        slot: 0,
        left: 0,
        node: 0,
    };
    put_row(rows, end.rows(), u64::from(head), 0);
    Expression {
        next: at + end.offset(),
        nodes: end.nodes(),
        rows: end.rows() + 1,
    }
}
