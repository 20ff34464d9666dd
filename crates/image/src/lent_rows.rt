// Rows of a lent table: as many numbers each as its stride.
// The tables are numbers and no typed rows, since `load` promises what is left in them whatever numbers are lent.
ghost use Rattle.std.specs.Prelude.{◌≡◌, ◌<◌};
ghost use Rattle.image.specs.Filled.{row_stored};

// Row i of a table of rows of N numbers; past the table's end nothing changes. One test serves the row.
#[tactic(auto, using(crate::proofs::Sets::put_mid_sets), unfolding(crate::specs::Filled::row_stored))]
pub fn put_row<const N: usize>(table: &mut [u64], i: usize, row: [u64; N])
    requires { 0 < N }
    ensures { table.new ≡ row_stored N table.old i row.entry }
{
    if i < table.len() / N {
        table[N * i..N * i + N].copy_from_slice(&row);
    }
}
