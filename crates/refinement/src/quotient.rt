// The least table of what a table gives: one row for each block of rows that do alike.
ghost use Rattle.std.specs.Prelude.{◌≡◌, ℕ, ◌+◌, ◌*◌, ◌^◌, ◌<◌, ◌≤◌, length};
ghost use Rattle.refinement.specs.Refining.{at, Refined};
ghost use Rattle.refinement.specs.Joining.{Firsts, Numbering, Put, Joined};

use machines::raw::RawTable;

// Numbers the blocks by their least rows.
fn number(block: &[u32], names: &mut [u32]) -> usize
    requires few { length block.now < 2 ^ 32 }
    requires names { length block.now ≤ length names.old }
    requires firsts { Firsts (length block.now) (at block.now) }
    ensures { Numbering (length block.now) result (at block.now) (at names.new) }
{
    let mut count = 0;
    for (i, first) in block.iter().enumerate() {
        let first = *first as usize;
        if first == i {
            names[i] = count as u32;
            count += 1;
        } else {
            names[i] = names[first];
        }
    }
    count
}

// Writes row i of one table into another, by the rows' names.
fn put_row(raw: RawTable<'_>, i: usize, names: &[u32], table: &mut [u32])
    requires i { i < raw.rows }
    requires names { raw.rows ≤ length names.now }
    requires room { 257 * at names.now i + 257 ≤ length table.old }
    ensures { Put raw.entry.words.now table.old table.new (at names.now) i raw.entry.columns }
{
    let to = 257 * names[i] as usize;
    table[to] = raw.shown(i);
    for (a, to_row) in raw.cells(i).iter().enumerate() {
        let to_row = *to_row as usize;
        table[to + (1 + a)] = names[to_row];
    }
}

// Writes the table of the blocks, a row for each, and says how many there are.
pub fn quotient(raw: RawTable<'_>, block: &[u32], names: &mut [u32], table: &mut [u32]) -> usize
    requires few { raw.rows < 2 ^ 32 }
    requires block { raw.rows ≤ length block.now }
    requires refined { Refined raw.columns raw.rows raw.words.now (at block.now) }
    requires names { raw.rows ≤ length names.old }
    requires table { 257 * raw.rows ≤ length table.old }
    ensures { Joined raw.entry.columns raw.entry.rows result raw.entry.words.now table.new }
{
    let block = &block[..raw.rows()];
    let count = number(block, names);
    for (i, first) in block.iter().enumerate() {
        if *first as usize == i {
            put_row(raw, i, names, table);
        }
    }
    count
}
