// The structs and the word types of a script in lent numbers, and what is read off a kind's code.
ghost use Rattle.std.specs.Prelude.{◌<◌, ◌≡◌};
ghost use Rattle.cells.specs.Code.{number_in, count_in};
ghost use Rattle.tables.specs.Kinds.{type_code_at, field_count_at, field_type_at, size_at, word_type_at};
ghost use Rattle.tables.specs.Kinds.{code_tag, code_checked, code_checked_array, word_code, fallen_code};

use cells::word;

// The code of the word type with a number; int's where there is no such type.
pub fn type_code(types: &[u64], n: usize) -> u64
    ensures { result ≡ type_code_at types.now n }
{
    types.get(n).copied().unwrap_or(1)
}

// How many fields a struct has; 0 where there is no such struct.
pub fn field_count(structs: &[u64], s: usize) -> usize
    ensures { result ≡ field_count_at structs.now s }
{
    word(structs, s.saturating_mul(17)) as usize
}

// The word type number of a struct's field.
pub fn field_type(structs: &[u64], s: usize, f: usize) -> usize
    ensures { result ≡ field_type_at structs.now s f }
{
    let at = s.saturating_mul(17).saturating_add(1).saturating_add(f);
    word(structs, at) as usize
}

// The number in a code: of a word type, or of a struct.
pub fn number_of(code: u64) -> usize
    ensures { (result ≡ number_in code) × (result < 256) }
{
    (code / 8 % 256) as usize
}

// An array's count.
pub fn count_of(code: u64) -> usize
    ensures { (result ≡ count_in code) × (result < 65536) }
{
    (code / 2048 % 65536) as usize
}

// Which pointer the code is of: 1 to a word, 2 to a struct, 3 to an array; 0 is no pointer. An enum would have to be made of these bits
// first, and is then matched in the same way.
pub fn tag_of(code: u64) -> u64
    ensures { (result ≡ code_tag code) × (result < 4) }
{
    code % 8 / 2
}

// Whether a kind's code is of a checked pointer.
pub fn is_checked(code: u64) -> bool
    ensures { result ≡ code_checked code }
{
    code % 2 == 0
}

// Whether it is of a checked pointer to an array.
pub fn is_checked_array(code: u64) -> bool
    ensures { result ≡ code_checked_array code }
{
    code % 8 == 6
}

// How many words the target of a pointer with this code covers.
#[tactic(auto, unfolding(crate::specs::Kinds::size_at))]
pub fn size_of(structs: &[u64], code: u64) -> usize
    ensures { result ≡ size_at structs.now code }
{
    let tag = tag_of(code);
    match tag {
        1 => 1,
        2 => field_count(structs, number_of(code)),
        3 => count_of(code),
        _ => 0,
    }
}

// The word type number of the i-th of them.
#[tactic(auto, unfolding(crate::specs::Kinds::word_type_at))]
pub fn word_type(structs: &[u64], code: u64, i: usize) -> usize
    ensures { result ≡ word_type_at structs.now code i }
{
    if tag_of(code) == 2 {
        field_type(structs, number_of(code), i)
    } else {
        number_of(code)
    }
}

// The code of a pointer to a word type, with the mode of the pointer that has this code; a number that doesn't fit is cut.
#[tactic(auto, unfolding(crate::specs::Kinds::word_code))]
pub fn word_code(code: u64, n: usize) -> u64
    ensures { result ≡ word_code code n }
{
    2 + code % 2 + 8 * (n % 256) as u64
}

// The code after a sum: the count of a checked array pointer falls by the right side, not below 0.
#[tactic(auto, unfolding(crate::specs::Kinds::fallen_code))]
pub fn fallen_code(code: u64, k: u64) -> u64
    ensures { result ≡ fallen_code code k }
{
    if is_checked_array(code) {
        code % 2048 + 2048 * (count_of(code) as u64).saturating_sub(k)
    } else {
        code
    }
}
