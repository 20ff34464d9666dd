// Answers every test case of a text: a line `W LIMIT HEX` is the heap's words, the steps allowed and the image, `-` where it is empty.
ghost use Rattle.std.specs.Prelude.{◌≤◌, ◌<◌, length, IfSome};

use std::io;

// Writes a line for each line of the text. The heap is handed on as the case before left it: no answer depends on what is in it.
pub fn answer_all(rt: &impl Print, text: &[u8]) -> io::Result<()> {
    let mut image = [0u8; 16385];
    let mut heap = [1311768467463790320u64; 8192];
    for line in text.split_inclusive(|byte| *byte == b'\n') {
        answer_line(rt, line, &mut image, &mut heap)?;
    }
    Ok(())
}

// Answers one case. A line that is not one is answered with an empty line.
fn answer_line(
    rt: &impl Print,
    line: &[u8],
    image: &mut [u8; 16385],
    heap: &mut [u64; 8192],
) -> io::Result<()> {
    let (words, rest) = decimal(line.strip_suffix(b"\n").unwrap_or(line));
    let (limit, rest) = decimal(rest.strip_prefix(b" ").unwrap_or(rest));
    match decode(rest.strip_prefix(b" ").unwrap_or(rest), image) {
        Some(count) if words <= 4096 => {
            let heap = &mut heap[..2 * words as usize];
            let answer = codlinbell::answer_within(&image[..count], heap, limit);
            let mut out = [0u8; 128];
            let length = answers::write_line(&mut out, answer);
            rt.write_all(&out[..length])
        }
        _ => rt.write_all(b"\n"),
    }
}

// The decimal number at the front, as it wraps at 64 bits, 0 where no digit is there, and what follows it.
fn decimal(text: &[u8]) -> (u64, &[u8])
    ensures { length result.1.now ≤ length text.now }
{
    let count = text.iter().position(|byte| !byte.is_ascii_digit());
    let (digits, rest) = text.split_at(count.unwrap_or(text.len()));
    let value = digits.iter().fold(0u64, |value, byte| {
        value
            .wrapping_mul(10)
            .wrapping_add(u64::from(byte.wrapping_sub(b'0')))
    });
    (value, rest)
}

// The image goes to the front of `image`, and how many bytes it has is answered: none for `-`, or one for each pair of hexadecimal digits.
fn decode(hex: &[u8], image: &mut [u8; 16385]) -> Option<usize>
    ensures { IfSome result (λ n. n ≤ 16385) }
{
    if matches!(hex, b"-") {
        return Some(0);
    }
    let count = hex.len() / 2;
    if hex.is_empty() || hex.len() % 2 != 0 || count > image.len() {
        return None;
    }
    for (byte, pair) in image.iter_mut().zip(hex.chunks_exact(2)) {
        *byte = 16 * digit(pair[0])? + digit(pair[1])?;
    }
    Some(count)
}

// The value of a hexadecimal digit.
fn digit(byte: u8) -> Option<u8>
    ensures { IfSome result (λ n. n < 16) }
{
    match byte {
        b'0'..=b'9' => Some(byte - b'0'),
        b'a'..=b'f' => Some(byte - b'a' + 10),
        _ => None,
    }
}
