// The runner's line: the bytes of an answer, written to the front of lent bytes. A write past their end is left out, and every byte
// counts, so a caller learns how long the line is.
// Not by `Display`: a `write!` may answer an error whatever it writes to, and its contract then says nothing of the bytes.
#![tactic(auto, using(crate::proofs::Writing::line_steps), unfolding(crate::specs::Line::line))]

ghost use Rattle.std.specs.Prelude.{◌+◌, ◌<◌, ◌≤◌, ◌≡◌, [], ◌∷◌, ◌++◌, length};
ghost use Rattle.std.proofs.lemmas.List.Edits.{sets};
ghost use Rattle.answers.specs.Line.{decimal, kind_word, halt_word, end_word, line, mode_letter};
ghost use Rattle.answers.specs.Written.{wrote};

use crate::Answer;
use crate::ends::{end_kind, end_value};
use calculus::{End, Halt, Outcome, Refusal};
use cells::{Kind, Mode};
use itoa::Buffer;

// Lent bytes, and how many bytes of the line stand before the next.
// Methods ask for a bound on `at`, so that no sum wraps: the type could not keep one, since each write raises it.
#[derive(Drop)]
struct Line<'a> {
    out: &'a mut [u8],
    at: usize,
}

// Writes the line and a newline, and answers how many bytes they have: never more than 127.
pub fn write_line(out: &mut [u8], answer: Answer) -> usize
    ensures value { result ≡ length (line answer) + 1 }
    ensures line_written { out.new ≡ sets out.old 0 (line answer ++ 10 ∷ []) }
    ensures upper_bound { result ≤ 127 }
{
    let mut line = Line { out, at: 0 };
    line.answer(answer);
    line.text(b"\n");
    line.at
}

impl Line<'_> {
    fn answer(&mut self, answer: Answer)
        requires { self.old.at ≡ 0 }
        ensures wrote { self.new ≡ wrote self.old (line answer) }
        ensures upper_bound { self.new.at ≤ 126 }
    {
        match answer {
            Err(Refusal { fault, place }) => {
                self.text(b"refused ");
                self.number(u64::from(fault));
                self.text(b" at ");
                self.number(place as u64);
            }
            Ok(Outcome { end, steps, first }) => {
                self.text(end_word(end));
                self.text(b" ");
                self.number(end_value(end));
                self.text(b" ");
                self.kind(end_kind(end));
                self.text(b" steps ");
                self.number(steps);
                self.text(b" unchecked ");
                self.number(first);
            }
        }
    }

    // A type: `int`, or a pointer's mode, what it points to, an array's count, and the number.
    fn kind(&mut self, kind: Kind)
        requires { self.old.at < 100 }
        ensures wrote { self.new ≡ wrote self.old (kind_word kind) }
        ensures upper_bound { self.new.at ≤ self.old.at + 17 }
    {
        match kind {
            Kind::Int => self.text(b"int"),
            Kind::Word { mode, of } => {
                self.text(mode_letter(mode));
                self.text(b".word.");
                self.number(u64::from(of));
            }
            Kind::Struct { mode, of } => {
                self.text(mode_letter(mode));
                self.text(b".struct.");
                self.number(u64::from(of));
            }
            Kind::Array { mode, count, of } => {
                self.text(mode_letter(mode));
                self.text(b".array.");
                self.number(u64::from(count));
                self.text(b".");
                self.number(u64::from(of));
            }
        }
    }

    // The decimal digits of a number.
    fn number(&mut self, n: u64)
        requires { self.old.at < 1000 }
        ensures wrote { self.new ≡ wrote self.old (decimal n) }
        ensures upper_bound { self.new.at ≤ self.old.at + 20 }
    {
        self.text(Buffer::new().format(n).as_bytes());
    }

    // A text, of which only what has room is written.
    #[tactic(auto, using(crate::proofs::Writing::clipped), unfolding(crate::specs::Written::wrote))]
    fn text(&mut self, text: &[u8])
        requires { self.old.at < 1000 }
        ensures { self.new ≡ wrote self.old text.now }
    {
        let start = self.at.min(self.out.len());
        self.at += text.len();
        let end = self.at.min(self.out.len());
        self.out[start..end].copy_from_slice(&text[..end - start]);
    }
}

fn end_word(end: End) -> &'static [u8]
    ensures value { result.now ≡ end_word end }
    ensures upper_bound { length result.now ≤ 6 }
{
    match end {
        End::Value(_) => b"value",
        End::Halted(halt) => halt_word(halt),
        End::Stuck => b"stuck",
        End::More => b"more",
    }
}

fn halt_word(halt: Halt) -> &'static [u8]
    ensures value { result.now ≡ halt_word halt }
    ensures upper_bound { length result.now ≤ 6 }
{
    match halt {
        Halt::Null => b"null",
        Halt::Bounds => b"bounds",
        Halt::Room => b"room",
    }
}

fn mode_letter(mode: Mode) -> &'static [u8]
    ensures { result.now ≡ mode_letter mode }
{
    match mode {
        Mode::Checked => b"c",
        Mode::Unchecked => b"u",
    }
}
