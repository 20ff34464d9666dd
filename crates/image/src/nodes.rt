// The expression, into the lent node table: four numbers a node, in the order of the nodes.
ghost use Rattle.std.specs.Prelude.{◌+◌, ◌<◌, ◌≤◌, ◌≡◌};
ghost use Rattle.image.specs.Answers.{with_next, told};
ghost use Rattle.image.specs.Filled.{filled};
ghost use Rattle.image.specs.Filling.{node_row, kind_code, literal, line_of, head_into, node_into, expression_into};

use crate::lent_rows::put_row;
use crate::number::{read_below, read_limited};
use crate::target::read_target;
use crate::{NodeRow, Parts};
use calculus::{Fault, Operation, Refusal};
use cells::{Mode, put, word};
use numbers::Read;

// What is known while the nodes are read: the part of the image that they stand in, the codes of the word types, and how many structs
// there are.
#[derive(Clone, Copy)]
struct NodeReader<'a> {
    image: &'a [u8],
    types: &'a [u64],
    structs: u64,
}

// The expression that starts at `at`: how many nodes it has. It is read in the part of the image that starts there, and its places are
// carried back.
#[tactic(auto, using(crate::proofs::Tail::nothing_read, crate::proofs::Tail::part_within), unfolding(crate::specs::Filling::expression_into))]
pub fn read_expression(
    table: &mut [u64],
    image: &[u8],
    types: &[u64],
    structs: u64,
    at: usize,
) -> Result<Read<usize>, Refusal>
    ensures { filled result table.new ≡ expression_into image.now types.now structs at table.old }
{
    if image.len() < at {
        return Err(Refusal {
            fault: Fault::Ends,
            place: at,
        });
    }
    let reader = NodeReader {
        image: &image[at..],
        types,
        structs,
    };
    match reader.read_node(table, 64, 0, 0, 0) {
        Ok(count) => Ok(Read {
            next: at + count.next,
            ..count
        }),
        Err(refusal) => Err(Refusal {
            place: at + refusal.place,
            ..refusal
        }),
    }
}

impl NodeReader<'_> {
    // The node at `at` with its parts, at most `depth` deep and inside `lets` lets, into the rows from its own number on: how many nodes
    // were read up to there.
    #[tactic(auto, using(crate::proofs::AnswerBounds::head_small), unfolding(crate::specs::Filling::node_into))]
    fn read_node(
        &self,
        table: &mut [u64],
        depth: usize,
        lets: u64,
        node: usize,
        at: usize,
    ) -> Result<Read<usize>, Refusal>
        requires { lets + depth ≤ 64 }
        ensures { filled result table.new ≡ node_into self.now.image.now self.now.types.now self.now.structs depth lets node at table.old }
    {
        if depth == 0 {
            // Its code is read, since a fault of the number itself goes first.
            read_limited(self.image, at)?;
            return Err(Refusal {
                fault: Fault::Limit,
                place: at,
            });
        }
        let left = depth - 1;
        let head = self.read_head(table, lets, node, at)?;
        match head.value {
            Parts::Leaf => Ok(Read {
                value: node + 1,
                next: head.next,
            }),
            Parts::One => self.read_node(table, left, lets, node + 1, head.next),
            Parts::Two { binds } => {
                let first = self.read_node(table, left, lets, node + 1, head.next)?;
                put(table, 4 * node + 3, first.value as u64);
                let inside = lets + u64::from(binds);
                self.read_node(table, left, inside, first.value, first.next)
            }
        }
    }

    // The node at `at` without its parts, into its row, whose second part, if it has one, is not reached yet. One node too many is told
    // before its code is looked at.
    #[tactic(auto, unfolding(crate::specs::Filling::head_into))]
    fn read_head(
        &self,
        table: &mut [u64],
        lets: u64,
        node: usize,
        at: usize,
    ) -> Result<Read<Parts>, Refusal>
        ensures { filled result table.new ≡ head_into self.now.image.now self.now.types.now self.now.structs lets node at table.old }
    {
        let code = read_limited(self.image, at)?;
        if 2048 <= node {
            return Err(Refusal {
                fault: Fault::Limit,
                place: at,
            });
        }
        let read = self.read_row(lets, at, Operation::from(code.value), code.next)?;
        let row = read.value;
        put_row(table, node, [code.value, row.argument, row.kind, 0]);
        Ok(Read {
            value: row.parts,
            next: read.next,
        })
    }

    // What stands at `at`, behind the code of a node of this operation, which is at `first`.
    #[tactic(auto, unfolding(crate::specs::Filling::line_of))]
    fn read_row(
        &self,
        lets: u64,
        first: usize,
        operation: Operation,
        at: usize,
    ) -> Result<Read<NodeRow>, Refusal>
        ensures { result ≡ told (line_of self.now.image.now self.now.types.now self.now.structs lets first operation at) }
    {
        let known = self.types.len() as u64;
        match operation {
            Operation::Literal => self.read_literal(at),
            Operation::Variable => {
                let variable = read_below(self.image, at, lets, Fault::Unknown)?;
                Ok(row(variable.value, 0, Parts::Leaf, variable.next))
            }
            Operation::Let => Ok(row(0, 0, Parts::Two { binds: true }, at)),
            Operation::Malloc => {
                let target = read_target(self.image, at, self.structs, known, Mode::Checked)?;
                Ok(row(0, target.value, Parts::Leaf, target.next))
            }
            Operation::Unchecked => Ok(row(0, 0, Parts::One, at)),
            Operation::Cast => {
                let kind = self.read_kind(at)?;
                Ok(row(0, kind.value, Parts::One, kind.next))
            }
            Operation::Read => Ok(row(0, 0, Parts::One, at)),
            Operation::Acts(_) => Ok(row(0, 0, Parts::Two { binds: false }, at)),
            Operation::Field => {
                let field = read_limited(self.image, at)?;
                Ok(row(field.value, 0, Parts::One, field.next))
            }
            Operation::Unknown => Err(Refusal {
                fault: Fault::Unknown,
                place: first,
            }),
        }
    }

    // A literal's value and word type.
    #[tactic(auto, unfolding(crate::specs::Filling::literal))]
    fn read_literal(&self, at: usize) -> Result<Read<NodeRow>, Refusal>
        ensures { result ≡ told (literal self.now.image.now self.now.types.now at) }
    {
        let value = read_limited(self.image, at)?;
        let kind = self.read_kind(value.next)?;
        Ok(row(value.value, kind.value, Parts::Leaf, kind.next))
    }

    // The word type whose number is at `at`, by its packed code.
    #[tactic(auto, unfolding(crate::specs::Filling::kind_code))]
    fn read_kind(&self, at: usize) -> Result<Read<u64>, Refusal>
        ensures { result ≡ told (kind_code self.now.image.now self.now.types.now at) }
    {
        let number = read_below(self.image, at, self.types.len() as u64, Fault::Unknown)?;
        Ok(Read {
            value: word(self.types, number.value as usize),
            ..number
        })
    }
}

// What stands behind a node's code, with the offset behind it.
fn row(argument: u64, kind: u64, parts: Parts, next: usize) -> Read<NodeRow>
    ensures { result ≡ with_next (node_row argument kind parts) next }
{
    Read {
        value: NodeRow {
            argument,
            kind,
            parts,
        },
        next,
    }
}
