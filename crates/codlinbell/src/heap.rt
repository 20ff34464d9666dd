// The heap of an accepted image: undefined but for the image's cells.
ghost use Rattle.std.specs.Prelude.{◌≡◌};
ghost use Rattle.codlinbell.specs.Placing.{cells_stored};

use cells::put_word;

// Puts every row of the cell table into the heap: address, value, packed code of the kind. Rows are three numbers each, as `load` left them.
pub fn place_cells(heap: &mut [u64], rows: &[u64])
    ensures { heap.new ≡ cells_stored rows.now heap.old }
{
    for j in 0..rows.len() / 3 {
        let address = rows[3 * j] as usize;
        put_word(heap, address, rows[3 * j + 1], rows[3 * j + 2]);
    }
}
