// Numbers of the node table and of the cell table by their place.
// They are numbers and no typed rows, since `judge_script` promises its answer whatever numbers they hold.
ghost use Rattle.std.specs.Prelude.{◌<◌, ◌≡◌};
ghost use Rattle.judge.specs.Rows.{table_number, node_number, operation_at, entry_at};

use calculus::Operation;

// Number k of node i's row.
pub fn row(nodes: &[u64], i: usize, k: usize) -> u64
    requires { k < 4 }
    ensures { result ≡ node_number nodes.now i k }
{
    number::<4>(nodes, i, k)
}

// What node i does: its code is looked at here and nowhere else.
pub fn operation_at(nodes: &[u64], i: usize) -> Operation
    ensures { result ≡ operation_at nodes.now i }
{
    Operation::from(row(nodes, i, 0))
}

// Number k of entry j of the cell table.
pub fn entry(cells: &[u64], j: usize, k: usize) -> u64
    requires { k < 3 }
    ensures { result ≡ entry_at cells.now j k }
{
    number::<3>(cells, j, k)
}

// Number k of row i of a table. A row that isn't whole isn't there, so that one test is enough.
#[tactic(auto, unfolding(crate::specs::Rows::table_number))]
fn number<const WIDTH: usize>(table: &[u64], i: usize, k: usize) -> u64
    requires { k < WIDTH }
    ensures { result ≡ table_number WIDTH table.now i k }
{
    if i < table.len() / WIDTH {
        table[WIDTH * i + k]
    } else {
        0
    }
}
