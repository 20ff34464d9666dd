// The typing rules: the type of node i from those of its parts, by their codes. `mode` is that of the code around the node.
// Kinds are codes, as the lent tables have them: the answer is promised whatever numbers they hold.
ghost use Rattle.std.specs.Prelude.{◌≡◌};
ghost use Rattle.judge.specs.Rules.{no_rule_told, follows_code, castable_code, access_told, field_told, cast_told, one_told};
ghost use Rattle.judge.specs.Rules.{assign_told, summable, sum_told, act_told, two_told};
ghost use Rattle.judge.specs.Rules.{literal_told, variable_told, malloc_told, leaf_told};

use crate::ScriptTables;
use crate::rows::row;
use calculus::{Act, Fault, Operation, Refusal};
use cells::{Mode, word};
use tables::{
    field_count, field_type, is_checked, number_of, size_of, tag_of, type_code, word_code,
};

// No typing rule fits node i.
pub fn no_rule(i: usize) -> Result<u64, Refusal>
    ensures { result ≡ no_rule_told i }
{
    Err(Refusal {
        fault: Fault::NoRule,
        place: i,
    })
}

// "An unchecked pointer only in unchecked mode."
fn follows_code(mode: Mode, code: u64) -> bool
    ensures { result ≡ follows_code mode code }
{
    mode == Mode::Unchecked || is_checked(code)
}

// "In checked mode not a checked pointer."
fn castable_code(mode: Mode, code: u64) -> bool
    ensures { result ≡ castable_code mode code }
{
    mode == Mode::Unchecked || tag_of(code) == 0 || !is_checked(code)
}

// An access through a pointer to a word or an array: the word or element type.
#[tactic(auto, unfolding(crate::specs::Rules::access_told))]
fn access_told(types: &[u64], mode: Mode, i: usize, code: u64) -> Result<u64, Refusal>
    ensures { result ≡ access_told types.now mode i code }
{
    if tag_of(code) % 2 == 1 && follows_code(mode, code) {
        return Ok(type_code(types, number_of(code)));
    }
    no_rule(i)
}

// A field address: the pointer's mode stays.
#[tactic(auto, unfolding(crate::specs::Rules::field_told))]
fn field_told(structs: &[u64], i: usize, field: u64, code: u64) -> Result<u64, Refusal>
    ensures { result ≡ field_told structs.now i field code }
{
    let of = number_of(code);
    let f = field as usize;
    if tag_of(code) == 2 && f < field_count(structs, of) {
        return Ok(word_code(code, field_type(structs, of, f)));
    }
    no_rule(i)
}

// A cast to the type with this code.
#[tactic(auto, unfolding(crate::specs::Rules::cast_told))]
fn cast_told(mode: Mode, i: usize, code: u64) -> Result<u64, Refusal>
    ensures { result ≡ cast_told mode i code }
{
    if castable_code(mode, code) {
        return Ok(code);
    }
    no_rule(i)
}

// A node with one part, of type x.
pub fn one_told(
    script: &ScriptTables,
    mode: Mode,
    i: usize,
    operation: Operation,
    x: u64,
) -> Result<u64, Refusal>
    ensures { result ≡ one_told script.now.structs.now script.now.types.now script.now.nodes.now mode i operation x }
{
    match operation {
        Operation::Unchecked => Ok(x),
        Operation::Cast => cast_told(mode, i, row(script.nodes, i, 2)),
        Operation::Read => access_told(script.types, mode, i, x),
        Operation::Field => field_told(script.structs, i, row(script.nodes, i, 1), x),
        _ => no_rule(i),
    }
}

// "The value part has that type exactly."
#[tactic(auto, unfolding(crate::specs::Rules::assign_told))]
fn assign_told(types: &[u64], mode: Mode, i: usize, x: u64, y: u64) -> Result<u64, Refusal>
    ensures { result ≡ assign_told types.now mode i x y }
{
    let element = access_told(types, mode, i, x)?;
    if y == element {
        return Ok(element);
    }
    no_rule(i)
}

// What the left side of a sum may be: an int; under an access also a pointer to an array.
fn summable(access: bool, x: u64) -> bool
    ensures { result ≡ summable access x }
{
    x == 1 || access && tag_of(x) == 3
}

// "Sum: both int, result int." Under an access "where the left is a pointer to an array and the right an int, the access has that array
// pointer. Any other sum there is judged as a plain sum, at its own number."
#[tactic(auto, unfolding(crate::specs::Rules::sum_told))]
fn sum_told(i: usize, access: bool, x: u64, y: u64) -> Result<u64, Refusal>
    ensures { result ≡ sum_told i access x y }
{
    if y == 1 && summable(access, x) {
        return Ok(x);
    }
    no_rule(i)
}

// What is done with two values, of types x and y: the rule of each act, told whether the node is judged as the pointer of an access.
fn act_told(
    types: &[u64],
    mode: Mode,
    i: usize,
    access: bool,
    act: Act,
    x: u64,
    y: u64,
) -> Result<u64, Refusal>
    ensures { result ≡ act_told types.now mode i access act x y }
{
    match act {
        Act::Assign => assign_told(types, mode, i, x, y),
        Act::Sum => sum_told(i, access, x, y),
    }
}

// A node with two parts, of types x and y.
pub fn two_told(
    script: &ScriptTables,
    mode: Mode,
    i: usize,
    access: bool,
    operation: Operation,
    x: u64,
    y: u64,
) -> Result<u64, Refusal>
    ensures { result ≡ two_told script.now.types.now mode i access operation x y }
{
    match operation {
        Operation::Let => Ok(y),
        Operation::Acts(act) => act_told(script.types, mode, i, access, act, x, y),
        _ => no_rule(i),
    }
}

// A node without parts: literal i is well typed if it is among the first `good` nodes.
pub fn leaf_told(
    bound: &[u64],
    script: &ScriptTables,
    good: usize,
    lets: usize,
    i: usize,
    operation: Operation,
) -> Result<u64, Refusal>
    ensures { result ≡ leaf_told bound.now script.now.structs.now script.now.nodes.now good lets i operation }
{
    match operation {
        Operation::Literal => literal_told(script.nodes, good, i),
        Operation::Variable => variable_told(bound, lets, i, row(script.nodes, i, 1)),
        Operation::Malloc => malloc_told(script.structs, i, row(script.nodes, i, 2)),
        _ => no_rule(i),
    }
}

#[tactic(auto, unfolding(crate::specs::Rules::literal_told))]
fn literal_told(nodes: &[u64], good: usize, i: usize) -> Result<u64, Refusal>
    ensures { result ≡ literal_told nodes.now good i }
{
    if i < good {
        return Ok(row(nodes, i, 2));
    }
    Err(Refusal {
        fault: Fault::IllTyped,
        place: i,
    })
}

#[tactic(auto, unfolding(crate::specs::Rules::variable_told))]
fn variable_told(bound: &[u64], lets: usize, i: usize, out: u64) -> Result<u64, Refusal>
    ensures { result ≡ variable_told bound.now lets i out }
{
    let out = out as usize;
    if out < lets {
        return Ok(word(bound, lets - 1 - out));
    }
    no_rule(i)
}

// "Malloc of a target of more than 0 words."
#[tactic(auto, unfolding(crate::specs::Rules::malloc_told))]
fn malloc_told(structs: &[u64], i: usize, code: u64) -> Result<u64, Refusal>
    ensures { result ≡ malloc_told structs.now i code }
{
    if 0 < size_of(structs, code) {
        return Ok(code);
    }
    no_rule(i)
}
