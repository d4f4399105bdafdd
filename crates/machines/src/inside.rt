// Tables, looked at before they are worked on or fed.
ghost use Rattle.std.specs.Prelude.{◌≡◌, ℕ, ◌*◌, ◌<◌, ◌≤◌, true, ◌↔◌, length, All, IsTrue};
ghost use Rattle.machines.specs.Columns.{cell};
ghost use Rattle.machines.specs.Inside.{Inside};

// Whether each of a row's cells leads to a row that is there.
fn leads_inside(cells: &[u32], rows: usize) -> bool
    ensures { IsTrue result ↔ All (λ to. to < rows) cells.now }
{
    cells.iter().all(|to| (*to as usize) < rows)
}

// Whether the first columns of so many rows lead to rows that are there.
pub(crate) fn rows_lead_inside(table: &[u32], columns: usize, rows: usize) -> bool
    requires columns { columns ≤ 256 }
    requires rows { 257 * rows ≤ length table.now }
    ensures { IsTrue result ↔ ((i : ℕ) → i < rows → (j : ℕ) → j < columns → cell table.now i j < rows) }
{
    (0..rows).all(|i| leads_inside(&table[257 * i + 1..257 * i + 1 + columns], rows))
}

// Whether a table has so many rows, one at least, each of which leads to one of them from each column.
pub fn is_inside(table: &[u32], columns: usize, rows: usize) -> bool
    ensures { (result ≡ true) ↔ Inside columns rows table.now }
{
    columns <= 256
        && rows > 0
        && rows <= table.len() / 257
        && rows_lead_inside(table, columns, rows)
}
