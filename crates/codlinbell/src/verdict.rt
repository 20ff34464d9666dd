// Loading and judging alone, for an editor: the announced type, or the refusal.
ghost use Rattle.std.specs.Prelude.{◌≤◌, min, ◌≡◌, length};
ghost use Rattle.judge.specs.Script.{as_verdict};
ghost use Rattle.codlinbell.specs.Answered.{announced};
ghost use Rattle.codlinbell.specs.Prepared.{LongTables};

use crate::fronts::fronts;
use calculus::Refusal;
use cells::Kind;
use image::load;
use judge::judge_script;

// The verdict on the image over a heap of `words` words, of which at most 4,096 are used. The tables are arrays of the longest length, since
// the library takes nothing from the heap.
pub fn judge_image(image: &[u8], words: usize) -> Result<Kind, Refusal>
    ensures { as_verdict result ≡ announced (min words 4096) image.now }
{
    let mut structs = [0u64; 544];
    let mut types = [0u64; 256];
    let mut cells = [0u64; 12288];
    let mut nodes = [0u64; 8192];
    let mut marks = [0u16; 4096];
    let mut queue = [0u64; 4096];
    let mut bound = [0u64; 256];
    judge_in(
        &mut structs,
        &mut types,
        &mut cells,
        &mut nodes,
        &mut marks,
        &mut queue,
        &mut bound,
        image,
        words.min(4096),
    )
}

// The verdict, with tables that are long enough for any content of the image. Frames are not needed: `bound` stands for them in `LongTables`.
fn judge_in(
    structs: &mut [u64],
    types: &mut [u64],
    cells: &mut [u64],
    nodes: &mut [u64],
    marks: &mut [u16],
    queue: &mut [u64],
    bound: &mut [u64],
    image: &[u8],
    words: usize,
) -> Result<Kind, Refusal>
    requires { LongTables image.now structs.old types.old cells.old nodes.old marks.old queue.old bound.old bound.old }
    ensures { as_verdict result ≡ announced words image.now }
{
    let sizes = load(image, words, structs, types, cells, nodes)?;
    let script = fronts(structs, types, cells, nodes, sizes);
    judge_script(
        script.structs,
        script.types,
        script.cells,
        script.nodes,
        marks,
        queue,
        bound,
    )
}
