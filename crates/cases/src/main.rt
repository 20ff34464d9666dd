// The cases of refusals.md, verdicts.md and runs.md: `make` writes them to standard input, and each of its lines is answered by a line.
#![tactic(auto)]

use input::read_full;
use std::io;

mod lines;

// Reads all of standard input, of which `make` writes no more than this. Nothing is taken from the heap.
fn main(rt: HostRuntime) -> io::Result<()> {
    let mut text = [0u8; 524288];
    let read = read_full(&mut rt.stdin(), &mut text)?;
    lines::answer_all(&rt, &text[..read])
}
