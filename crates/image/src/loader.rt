// The whole image, into lent tables.
ghost use Rattle.std.specs.Prelude.{◌+◌, ◌≡◌, take};
ghost use Rattle.image.specs.Loaded.{loaded_tables, load_into};

use crate::Sizes;
use crate::front::read_front;
use crate::nodes::read_expression;
use calculus::{Fault, Refusal};

// The image over a heap of `words` words: the structs, the word types, the cells and the nodes that it holds, or its refusal.
#[tactic(auto, using(crate::proofs::AnswerBounds::front_small), unfolding(crate::specs::Loaded::load_into))]
pub fn load(
    image: &[u8],
    words: usize,
    structs: &mut [u64],
    types: &mut [u64],
    cells: &mut [u64],
    nodes: &mut [u64],
) -> Result<Sizes, Refusal>
    ensures { loaded_tables result structs.new types.new cells.new nodes.new ≡ load_into words image.now structs.old types.old cells.old nodes.old }
{
    let read = read_front(structs, types, cells, image, words as u64)?;
    let front = read.value;
    let known = front.counts.types as usize + 1;
    let few = &types[..known.min(types.len())];
    let count = read_expression(nodes, image, few, front.counts.structs, read.next)?;
    if count.next < image.len() {
        return Err(Refusal {
            fault: Fault::Behind,
            place: count.next,
        });
    }
    Ok(Sizes {
        format: front.format,
        structs: front.counts.structs as usize,
        types: known,
        cells: front.cells as usize,
        nodes: count.value,
    })
}
