// The answer to an image over a lent heap: it is loaded into tables, judged, and run.
ghost use Rattle.std.specs.Prelude.{ℕ, ◌*◌, ◌/◌, ◌≤◌, ◌≡◌, List, length, min, Ok};
ghost use Rattle.image.specs.Content.{Content};
ghost use Rattle.codlinbell.specs.Answered.{answering, answered, ran, judged_then, content_verdict, content_run, default_limit};
ghost use Rattle.codlinbell.specs.Prepared.{LongTables, Prepared};

use crate::fronts::{TableFronts, fronts};
use crate::heap::place_cells;
use answers::Answer;
use calculus::Outcome;
use cells::{clear, heap_words};
use image::load;
use judge::judge_script;
use machine::run;
use yields::Terms;

// The steps that a run may take where no limit is named.
pub const DEFAULT_LIMIT: u64 = 100000;

// The answer where no limit is named.
pub fn answer_to(image: &[u8], heap: &mut [u64]) -> Answer
    ensures { answering result heap.new ≡ answered image.now heap.old default_limit }
{
    answer_within(image, heap, DEFAULT_LIMIT)
}

// The answer to the image over the lent heap, with at most `limit` steps. Tables are made as long as an image of about this length can
// need, at 12, 31, 96 or 210 KiB: clearing them is most of what a small script costs.
pub fn answer_within(image: &[u8], heap: &mut [u64], limit: u64) -> Answer
    ensures { answering result heap.new ≡ answered image.now heap.old limit }
{
    match image.len() {
        ..=64 => answer_with::<64, 256, 21>(heap, image, limit),
        ..=512 => answer_with::<512, 2048, 170>(heap, image, limit),
        ..=2048 => answer_with::<2048, 8192, 682>(heap, image, limit),
        _ => answer_with::<12288, 8192, 4096>(heap, image, limit),
    }
}

// The same, with so many numbers for the cells, so many for the nodes, and so many entries for the judge's marks and queue. Each length has
// a stack frame of its own, of 256 KiB at most: the library takes nothing from the heap.
#[inline(never)]
fn answer_with<const CELLS: usize, const NODES: usize, const ENTRIES: usize>(
    heap: &mut [u64],
    image: &[u8],
    limit: u64,
) -> Answer
    requires cells_room { min (length image.now) 12288 ≤ CELLS }
    requires nodes_room { 4 * min (length image.now) 2048 ≤ NODES }
    requires fits { (CELLS ≤ 12288) × (NODES ≤ 8192) × (ENTRIES ≤ 4096) }
    requires entries_room { min (length image.now / 3) 4096 ≤ ENTRIES }
    ensures { answering result heap.new ≡ answered image.now heap.old limit }
{
    let mut structs = [0u64; 544];
    let mut types = [0u64; 256];
    let mut cells = [0u64; CELLS];
    let mut nodes = [0u64; NODES];
    let mut marks = [0u16; ENTRIES];
    let mut queue = [0u64; ENTRIES];
    let mut bound = [0u64; 128];
    let mut frames = [0u64; 256];
    answer_in(
        heap,
        &mut structs,
        &mut types,
        &mut cells,
        &mut nodes,
        &mut marks,
        &mut queue,
        &mut bound,
        &mut frames,
        image,
        limit,
    )
}

// The answer, with tables that are long enough for any content of the image. They are lent one by one, since the loader writes four of them
// that the judge and the machine then only read.
fn answer_in(
    heap: &mut [u64],
    structs: &mut [u64],
    types: &mut [u64],
    cells: &mut [u64],
    nodes: &mut [u64],
    marks: &mut [u16],
    queue: &mut [u64],
    bound: &mut [u64],
    frames: &mut [u64],
    image: &[u8],
    limit: u64,
) -> Answer
    requires { LongTables image.now structs.old types.old cells.old nodes.old marks.old queue.old bound.old frames.old }
    ensures { answering result heap.new ≡ answered image.now heap.old limit }
{
    let words = heap_words(heap);
    let sizes = load(image, words, structs, types, cells, nodes)?;
    let marked = sizes.cells;
    let script = fronts(structs, types, cells, nodes, sizes);
    let marks = &mut marks[..marked];
    judge_and_run(heap, marks, queue, bound, frames, &script, words, limit)
}

// The content of the tables is judged, and run if it is accepted; if not, the heap stays as it is.
fn judge_and_run(
    heap: &mut [u64],
    marks: &mut [u16],
    queue: &mut [u64],
    bound: &mut [u64],
    frames: &mut [u64],
    script: &TableFronts,
    words: usize,
    limit: u64,
) -> Answer
    ensures { (image : List ℕ) (c : Content)
        → Prepared image heap.old words c script.now.structs.now script.now.types.now script.now.cells.now script.now.nodes.now
        marks.old queue.old bound.old frames.old
        → answering result heap.new ≡ judged_then heap.old (content_verdict heap.old c) (λ _. content_run heap.old limit c) }
{
    let TableFronts {
        structs,
        types,
        cells,
        nodes,
    } = *script;
    judge_script(structs, types, cells, nodes, marks, queue, bound)?;
    Ok(place_and_run(heap, bound, frames, script, words, limit))
}

// The content of the tables is run over its own heap.
fn place_and_run(
    heap: &mut [u64],
    bound: &mut [u64],
    frames: &mut [u64],
    script: &TableFronts,
    words: usize,
    limit: u64,
) -> Outcome
    ensures { (image : List ℕ) (c : Content) (marks queue : List ℕ)
        → Prepared image heap.old words c script.now.structs.now script.now.types.now script.now.cells.now script.now.nodes.now
        marks queue bound.old frames.old
        → answering (Ok result) heap.new ≡ ran heap.old (content_run heap.old limit c) }
{
    clear(heap, words);
    place_cells(heap, script.cells);
    let terms = Terms {
        words,
        low: 1,
        high: words,
        limit,
    };
    run(
        heap,
        frames,
        bound,
        script.nodes,
        script.structs,
        script.types,
        terms,
    )
}
