// From a table over columns to one with a cell for each byte.
ghost use Rattle.std.specs.Prelude.{◌≡◌, ℕ, ◌*◌, ◌<◌, ◌≤◌, length, slice_index};
ghost use Rattle.machines.specs.Expanding.{RowExpanded, Expanded};

use crate::raw::RawTable;

// Writes a row: what it shows, and for each byte the cell of its column.
fn expand_row(raw: &[u32], column: &[u32], row: &mut [u32])
    requires raw { length raw.now ≡ 257 }
    requires column { 256 ≤ length column.now }
    requires within { (b : ℕ) → b < 256 → slice_index column.now b < 256 }
    requires row { length row.old ≡ 257 }
    ensures { RowExpanded (λ b. slice_index column.now b) raw.now row.new }
{
    row[0] = raw[0];
    for (b, j) in column[0..256].iter().enumerate() {
        row[1 + b] = raw[1 + *j as usize];
    }
}

// Writes the rows of a table over columns with a cell for each byte.
pub fn expand(raw: RawTable<'_>, column: &[u32], table: &mut [u32])
    requires column { 256 ≤ length column.now }
    requires within { (b : ℕ) → b < 256 → slice_index column.now b < raw.columns }
    requires table { 257 * raw.rows ≤ length table.old }
    ensures { Expanded (λ b. slice_index column.now b) raw.entry.rows raw.entry.words.now table.old table.new }
{
    // A rule of the project: rows are parts that start in a lent slice's middle, one read and one written.
    for i in 0..raw.rows() {
        let row = &mut table[257 * i..257 * i + 257];
        expand_row(raw.row(i), column, row);
    }
}
