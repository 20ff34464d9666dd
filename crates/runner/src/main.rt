// The runner: reads an image from standard input, runs it over a heap of 1,024 words and prints one line, which is the library's.
// One byte more than an image may have is read, so that a longer input is told by its length. Nothing is taken from the heap.
#![tactic(auto)]

use input::read_full;
use std::io;

fn main(rt: HostRuntime) -> io::Result<()> {
    let mut image = [0u8; 16385];
    let read = read_full(&mut rt.stdin(), &mut image)?;
    let mut heap = [0u64; 2048];
    let answer = codlinbell::answer_to(&image[..read], &mut heap);
    let mut line = [0u8; 128];
    let length = answers::write_line(&mut line, answer);
    rt.write_all(&line[..length])
}
