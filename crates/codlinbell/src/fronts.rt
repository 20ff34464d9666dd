// The fronts of the lent tables, which hold what was loaded: they travel together from there on.
ghost use Rattle.std.specs.Prelude.{◌*◌, ◌≤◌, ◌≡◌, length, take};

use image::Sizes;

// The structs, the word types, the cells and the nodes of a script in lent numbers.
#[derive(Clone, Copy)]
pub struct TableFronts<'a> {
    pub structs: &'a [u64],
    pub types: &'a [u64],
    pub cells: &'a [u64],
    pub nodes: &'a [u64],
}

// What content of these sizes takes of the tables: a struct 17 numbers, a cell three and a node four. The tables are numbers and no typed
// rows, since `image::load`, `judge_script` and `machine::run` promise what they answer whatever numbers a table holds.
pub fn fronts<'a>(
    structs: &'a [u64],
    types: &'a [u64],
    cells: &'a [u64],
    nodes: &'a [u64],
    sizes: Sizes,
) -> TableFronts<'a>
    requires structs_room { 17 * sizes.structs ≤ length structs.now }
    requires types_room { sizes.types ≤ length types.now }
    requires cells_room { 3 * sizes.cells ≤ length cells.now }
    requires nodes_room { 4 * sizes.nodes ≤ length nodes.now }
    ensures structs { result.structs.now ≡ take (17 * sizes.structs) structs.now }
    ensures types { result.types.now ≡ take sizes.types types.now }
    ensures cells { result.cells.now ≡ take (3 * sizes.cells) cells.now }
    ensures nodes { result.nodes.now ≡ take (4 * sizes.nodes) nodes.now }
{
    TableFronts {
        structs: &structs[..17 * sizes.structs],
        types: &types[..sizes.types],
        cells: &cells[..3 * sizes.cells],
        nodes: &nodes[..4 * sizes.nodes],
    }
}
