// A kind as one number and back.
ghost use Rattle.std.specs.Prelude.{◌≡◌};
ghost use Rattle.cells.specs.Code.{mode_number, mode_of, packed, unpacked, as_word};

use crate::{Cell, Kind, Mode};

// A mode's number in an image.
impl From<Mode> for u64 {
    ghost from_gives = { λ mode number. number ≡ mode_number mode };

    fn from(mode: Mode) -> u64 {
        mode as u64
    }
}

// The mode with a number; any other number is read as unchecked.
impl From<u64> for Mode {
    ghost from_gives = { λ number mode. mode ≡ mode_of number };

    fn from(number: u64) -> Mode {
        if number == 0 {
            Mode::Checked
        } else {
            Mode::Unchecked
        }
    }
}

// The code of a kind.
impl From<Kind> for u64 {
    ghost from_gives = { λ kind code. code ≡ packed kind };

    #[tactic(auto, unfolding(crate::specs::Code::packed))]
    fn from(kind: Kind) -> u64 {
        match kind {
            Kind::Int => 1,
            Kind::Word { mode, of } => 2 + u64::from(mode) + 8 * u64::from(of),
            Kind::Struct { mode, of } => 4 + u64::from(mode) + 8 * u64::from(of),
            Kind::Array { mode, count, of } => {
                6 + u64::from(mode) + 8 * u64::from(of) + 2048 * u64::from(count)
            }
        }
    }
}

// The kind of a code.
impl From<u64> for Kind {
    ghost from_gives = { λ code kind. kind ≡ unpacked code };

    #[tactic(auto, unfolding(crate::specs::Code::unpacked))]
    fn from(code: u64) -> Kind {
        let mode = Mode::from(code % 2);
        let of = (code / 8 % 256) as u8;
        let tag = code % 8 / 2;
        match tag {
            1 => Kind::Word { mode, of },
            2 => Kind::Struct { mode, of },
            3 => Kind::Array {
                mode,
                count: (code / 2048 % 65536) as u16,
                of,
            },
            _ => Kind::Int,
        }
    }
}

// The word of the heap that two numbers are.
pub fn as_word(value: u64, code: u64) -> Option<Cell>
    ensures { result ≡ as_word value code }
{
    if code == 0 {
        None
    } else {
        Some(Cell {
            value,
            kind: code.into(),
        })
    }
}
