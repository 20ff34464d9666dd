// Where reading stands, as one number.
ghost use Rattle.std.specs.Prelude.{◌^◌, ◌<◌, ◌≡◌};
ghost use Rattle.reader.specs.Cursors.{reading_at, standing_in, cursor_number, behind_head, behind_row};

use std::marker::Model;

// At this offset, behind so many nodes and rows.
#[derive(Clone, Copy)]
pub struct Cursor {
    number: u64,
}

impl Model for Cursor {
    ghost use Rattle.reader.specs.Cursors.{ReadingAt};

    ghost Value = { ReadingAt };

    ghost use Rattle.reader.specs.Cursors.{cursor_number, standing_in};

    ghost view = { λ cursor. standing_in cursor.number };

    ghost inverse = { λ stands. record { number = cursor_number stands } };

    ghost use Rattle.std.proofs.Common.{ℕ, ap};
    ghost use Rattle.reader.specs.declared.cursor.Cursor.TheInside.{Inside};
    ghost use Rattle.reader.specs.Packing.{cursor_again};

    ghost inverse_ok = { λ cursor _. ap (λ (n : ℕ). record { number = n }) (cursor_again cursor.number) };
}

impl Cursor {
    // Before the first node.
    pub fn start() -> Cursor
        ensures { result ≡ reading_at 0 0 0 }
    {
        Cursor { number: 0 }
    }

    pub fn offset(self) -> usize
        ensures is { result ≡ self.offset }
        ensures small { result < 2 ^ 39 }
    {
        (self.number / 33554432) as usize
    }

    pub fn nodes(self) -> usize
        ensures is { result ≡ self.nodes }
        ensures small { result < 4096 }
    {
        (self.number / 8192 % 4096) as usize
    }

    pub fn rows(self) -> usize
        ensures is { result ≡ self.rows }
        ensures small { result < 8192 }
    {
        (self.number % 8192) as usize
    }

    // Behind the head of a node, which ends at `next`: one node more. A number that doesn't fit its bits is cut to them.
    #[tactic(auto, unfolding(crate::specs::Cursors::behind_head))]
    pub fn behind_head(self, next: usize) -> Cursor
        ensures { result ≡ behind_head self next }
    {
        let nodes = (self.nodes() + 1) % 4096;
        let offset = next % 274877906944;
        Cursor {
            number: self.rows() as u64 + 8192 * nodes as u64 + 33554432 * offset as u64,
        }
    }

    // Behind one row more.
    #[tactic(auto, unfolding(crate::specs::Cursors::behind_row))]
    pub fn behind_row(self) -> Cursor
        ensures { result ≡ behind_row self }
    {
        Cursor {
            number: self.number.wrapping_add(1),
        }
    }
}

impl From<Cursor> for u64 {
    ghost from_gives = { λ cursor number. number ≡ cursor_number cursor };

    fn from(cursor: Cursor) -> u64 {
        cursor.number
    }
}

impl From<u64> for Cursor {
    ghost from_gives = { λ number cursor. cursor ≡ standing_in number };

    fn from(number: u64) -> Cursor {
        Cursor { number }
    }
}
