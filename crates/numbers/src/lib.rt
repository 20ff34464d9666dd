// Numbers in an image: groups of seven bits, lowest first, only the shortest writing, at a width that the reader is told.
#![tactic(auto)]

ghost use Rattle.std.specs.Prelude.{◌+◌, ◌*◌, ◌^◌, ◌<◌, ◌≤◌, ◌≡◌};
ghost use Rattle.numbers.specs.Reading.{groups, last_group, number_at};

// What was read at a place of the image, and the offset behind it.
#[derive(Clone, Copy, Debug, PartialEq, Eq)]
pub struct Read<T> {
    pub value: T,
    pub next: usize,
}

// Why no number stands at a place of the image.
#[derive(Clone, Copy, Debug, PartialEq, Eq)]
pub enum Unread {
    // The image ends inside it: the image's length.
    Ends { place: usize },
    // It is too large or not shortest: its first byte.
    Unfit { place: usize },
}

// The number at `at`, at most 2^32 - 1.
pub fn read_number(image: &[u8], at: usize) -> Result<Read<u64>, Unread>
    ensures { result ≡ number_at image.now at }
{
    read_groups(image, at, 4, 15)
}

// The number at `first` with at most `more` groups before a last one of at most `top`.
#[tactic(auto, using(crate::proofs::Turns::turns), unfolding(crate::specs::Reading::groups))]
fn read_groups(image: &[u8], first: usize, more: usize, top: u64) -> Result<Read<u64>, Unread>
    requires { (0 < top) × (128 ^ more * (top + 1) ≤ 2 ^ 64) }
    ensures { result ≡ groups top image.now first more first 1 0 }
{
    let mut left = more;
    let mut weight: u64 = 1;
    let mut sum: u64 = 0;
    for at in first..image.len() {
        let group = u64::from(image[at]);
        if left == 0 {
            if top < group {
                return Err(Unread::Unfit { place: first });
            }
            return last_group(first, at, weight, sum, group);
        }
        if group < 128 {
            return last_group(first, at, weight, sum, group);
        }
        sum += group % 128 * weight;
        weight *= 128;
        left -= 1;
    }
    Err(Unread::Ends { place: image.len() })
}

// The number whose last group is `group`: a zero is good only if it is the sole group.
#[tactic(auto, unfolding(crate::specs::Reading::last_group))]
fn last_group(
    first: usize,
    at: usize,
    weight: u64,
    sum: u64,
    group: u64,
) -> Result<Read<u64>, Unread>
    requires { (sum + group * weight < 2 ^ 64) × (at + 1 < 2 ^ 64) }
    ensures { result ≡ last_group first at weight sum group }
{
    if group == 0 && first != at {
        return Err(Unread::Unfit { place: first });
    }
    Ok(Read {
        value: sum + group * weight,
        next: at + 1,
    })
}
