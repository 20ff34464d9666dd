// A program's input, into memory that the caller has: the two programs read it so, since they take nothing from the heap.
#![tactic(auto)]

ghost use Rattle.std.specs.Prelude.{ℕ, ◌<◌, ◌≤◌, length, take, IfOk, OnErr};
ghost use Rattle.std.specs.Io.KnownBytes.{Consumes, IsAtEnd};

use std::io;
use std::io::Read;

// Reads until `bytes` is full or the input ends, and answers how many bytes it put at the front of `bytes`. By `while`, since each read
// gives as many bytes as it likes.
// Of an input whose bytes are known the answer is theirs: it lost what stands at the front of `bytes`, and with room left it has no more.
// A read that fails loses nothing, and what was read before it stands in front.
pub fn read_full<R: Read>(input: &mut R, bytes: &mut [u8]) -> io::Result<usize>
    ensures bound { IfOk result (λ n. n ≤ length bytes.new) }
    ensures taken { IfOk result (λ n. Consumes (R.remaining input.old) (R.remaining input.new) (take n bytes.new)) }
    ensures end { IfOk result (λ n. n < length bytes.new → IsAtEnd (R.remaining input.new)) }
    ensures err { OnErr result ((n : ℕ) × (n < length bytes.new)
        × Consumes (R.remaining input.old) (R.remaining input.new) (take n bytes.new)) }
{
    let mut done = 0;
    while done < bytes.len() {
        let read = input.read(&mut bytes[done..])?;
        if read == 0 {
            break;
        }
        done += read;
    }
    Ok(done)
}
