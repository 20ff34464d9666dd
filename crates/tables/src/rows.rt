// The rows of an expression in lent numbers, two a row.
ghost use Rattle.std.specs.Prelude.{◌<◌, ◌≡◌};
ghost use Rattle.tables.specs.Rows.{row_number, head_at, datum_at, put_row};

// The head of row p, 0 where there is no whole row p.
#[tactic(auto, unfolding(crate::specs::Rows::head_at))]
pub fn head_at(rows: &[u64], p: usize) -> u64
    ensures { result ≡ head_at rows.now p }
{
    row_number(rows, p, 0)
}

// Its datum, in the same way.
#[tactic(auto, unfolding(crate::specs::Rows::datum_at))]
pub fn datum_at(rows: &[u64], p: usize) -> u64
    ensures { result ≡ datum_at rows.now p }
{
    row_number(rows, p, 1)
}

// Row p has this head and datum from now on; where there is no whole row p nothing changes.
#[tactic(auto, unfolding(crate::specs::Rows::put_row))]
pub fn put_row(rows: &mut [u64], p: usize, head: u64, datum: u64)
    ensures { rows.new ≡ put_row rows.old p head datum }
{
    if p < rows.len() / 2 {
        let at = 2 * p;
        rows[at] = head;
        rows[at + 1] = datum;
    }
}

// Number j of row p, 0 where there is no whole row p.
fn row_number(rows: &[u64], p: usize, j: usize) -> u64
    requires { j < 2 }
    ensures { result ≡ row_number rows.now p j }
{
    if p < rows.len() / 2 {
        rows[2 * p + j]
    } else {
        0
    }
}
