// The literal check: one pass over the literals in node order. What a literal covers is marked, what of it can need other words is queued,
// and what was queued is looked at in turn. Marks stay from literal to literal: what was found good stays good.
ghost use Rattle.std.specs.Prelude.{◌+◌, ◌<◌, ◌≤◌, ◌^◌, ◌≡◌, length};
ghost use Rattle.judge.specs.Marks.{seen};
ghost use Rattle.judge.specs.Literals.{span, claim, look_fields, look_alike, look_at, literal_look, node_look, first_bad, looking, found};

use crate::ScriptTables;
use crate::addresses::covered;
use crate::marks::{mark, mark_at, put_mark};
use crate::rows::{entry, operation_at, row};
use calculus::Operation;
use cells::word;
use tables::{is_checked, size_of, tag_of, type_code, word_type};

// How many words a literal needs: those that its target covers, if it is a checked pointer other than 0.
#[tactic(auto, unfolding(crate::specs::Literals::span))]
fn span(script: ScriptTables, value: u64, code: u64) -> usize
    ensures { result ≡ span script.entry.structs.now value code }
{
    if value != 0 && is_checked(code) {
        size_of(script.structs, code)
    } else {
        0
    }
}

// The code that a pointer's i-th word has to have.
fn claim(script: ScriptTables, code: u64, i: usize) -> u64
    ensures { result ≡ claim script.entry.structs.now script.entry.types.now code i }
{
    type_code(script.types, word_type(script.structs, code, i))
}

// `count` entries from `first` on have the codes that a pointer to a struct claims: then they are marked. Fields are few and each has a code
// of its own, so a field's mark reaches no further than the field. This and the functions below answer where the queue then ends, or
// nothing if a word that has to be there isn't, or isn't of the type claimed.
fn look_fields(
    marks: &mut [u16],
    queue: &mut [u64],
    script: ScriptTables,
    tail: usize,
    code: u64,
    first: usize,
    count: usize,
) -> Option<usize>
    requires { first + count < 2 ^ 64 }
    ensures { looking result marks.new queue.new
        ≡ look_fields script.entry.structs.now script.entry.types.now script.entry.cells.now code first count 0
        (seen marks.old queue.old tail) }
{
    let mut end = tail;
    for i in 0..count {
        let kind = claim(script, code, i);
        if entry(script.cells, first + i, 2) != kind {
            return None;
        }
        end = mark(marks, queue, end, first + i, kind, 1);
    }
    Some(end)
}

// `count` entries from `first` on have this code: then they are marked. What a mark reaches over has the same code and is passed over. Each
// mark that is met is raised to reach as far as these entries do, so that the next pass over them takes one step from there: otherwise
// every pass would take the small steps again. By `while`, since a turn passes over as many entries as a mark reaches. If an entry is off,
// the marks that were raised too far are asked for no more.
fn look_alike(
    marks: &mut [u16],
    queue: &mut [u64],
    script: ScriptTables,
    tail: usize,
    code: u64,
    first: usize,
    count: usize,
) -> Option<usize>
    requires { (first + count < 2 ^ 64) × (count < 65536) }
    ensures { looking result marks.new queue.new
        ≡ look_alike script.entry.cells.now code count count first (seen marks.old queue.old tail) }
{
    let mut end = tail;
    let mut j = first;
    let mut left = count;
    while 0 < left {
        if entry(script.cells, j, 2) != code {
            return None;
        }
        let known = usize::from(mark_at(marks, j));
        if known == 0 {
            end = mark(marks, queue, end, j, code, left as u16);
            j += 1;
            left -= 1;
        } else if left <= known {
            return Some(end);
        } else {
            put_mark(marks, j, left as u16);
            j += known;
            left -= known;
        }
    }
    Some(end)
}

// The words that a literal needs are there and have the codes claimed: then they are marked.
#[tactic(auto, using(crate::proofs::Room::covered_fits, crate::proofs::Room::few_words), unfolding(crate::specs::Literals::look_at))]
fn look_at(
    marks: &mut [u16],
    queue: &mut [u64],
    script: ScriptTables,
    tail: usize,
    value: u64,
    code: u64,
) -> Option<usize>
    ensures { looking result marks.new queue.new
        ≡ look_at script.entry.structs.now script.entry.types.now script.entry.cells.now value code (seen marks.old queue.old tail) }
{
    let needed = span(script, value, code);
    if needed == 0 {
        return Some(tail);
    }
    let first = covered(script.cells, value, needed - 1)?;
    if tag_of(code) == 2 {
        return look_fields(marks, queue, script, tail, code, first, needed);
    }
    let alike = claim(script, code, 0);
    look_alike(marks, queue, script, tail, alike, first, needed)
}

// A literal and all that is reached from it: the entries that join the queue are looked at in turn. The look is called in one place, so
// that the compiler can put it there: called once before a `while`, a list takes two fifths more instructions.
fn literal_look(
    marks: &mut [u16],
    queue: &mut [u64],
    script: ScriptTables,
    tail: usize,
    value: u64,
    code: u64,
) -> Option<usize>
    requires { tail ≤ length queue.old }
    ensures { looking result marks.new queue.new
        ≡ literal_look script.entry.structs.now script.entry.types.now script.entry.cells.now value code (seen marks.old queue.old tail) }
{
    let mut head = tail;
    let mut end = tail;
    let mut held = value;
    let mut kind = code;
    loop {
        end = look_at(marks, queue, script, end, held, kind)?;
        if end <= head {
            return Some(end);
        }
        let j = word(queue, head) as usize;
        held = entry(script.cells, j, 1);
        kind = entry(script.cells, j, 2);
        head += 1;
    }
}

// Node i, if it is a literal.
#[tactic(auto, unfolding(crate::specs::Literals::node_look))]
fn node_look(
    marks: &mut [u16],
    queue: &mut [u64],
    script: ScriptTables,
    tail: usize,
    i: usize,
) -> Option<usize>
    requires { tail ≤ length queue.old }
    ensures { looking result marks.new queue.new
        ≡ node_look script.entry.structs.now script.entry.types.now script.entry.cells.now script.entry.nodes.now i
        (seen marks.old queue.old tail) }
{
    if operation_at(script.nodes, i) == Operation::Literal {
        let value = row(script.nodes, i, 1);
        let code = row(script.nodes, i, 2);
        return literal_look(marks, queue, script, tail, value, code);
    }
    Some(tail)
}

// How many nodes there are before the first literal that isn't well typed over the cells: all of them if there is none. It is no Option,
// which takes a word more in the frame of each call below.
pub fn first_bad(marks: &mut [u16], queue: &mut [u64], script: ScriptTables) -> usize
    ensures { found result marks.new queue.new
        ≡ first_bad script.entry.structs.now script.entry.types.now script.entry.cells.now script.entry.nodes.now
        marks.old queue.old }
{
    marks.fill(0);
    let count = script.nodes.len() / 4;
    let mut tail = 0;
    for i in 0..count {
        let Some(next) = node_look(marks, queue, script, tail, i) else {
            return i;
        };
        tail = next;
    }
    count
}
