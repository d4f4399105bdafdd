// Partition refinement: the rows of a table are parted into blocks of rows that do alike.
ghost use Rattle.std.specs.Prelude.{◌≡◌, ℕ, ◌^◌, ◌<◌, ◌≤◌, length, MatchBool};
ghost use Rattle.refinement.specs.Refining.{at, Same, Other, Found, Refined};

use machines::raw::RawTable;

// Whether two rows are in one block, show the same and lead to the same blocks. That each row has a block is a clause here and below:
// blocks are lent to be written.
fn alike(table: RawTable<'_>, block: &[u32], i: usize, j: usize) -> bool
    requires block { length block.now ≡ table.rows }
    requires i { i < table.rows }
    requires j { j < table.rows }
    ensures { MatchBool result (Same table.entry.columns table.entry.words.now (at block.now) i j) (Other table.entry.columns table.entry.words.now (at block.now) i j) }
{
    block[i] == block[j]
        && table.shown(i) == table.shown(j)
        && table
            .cells(i)
            .iter()
            .zip(table.cells(j))
            .all(|(x, y)| block[*x as usize] == block[*y as usize])
}

// The least row that is alike to row i. None is below the least row of i's block, so the search begins there.
fn least_alike(table: RawTable<'_>, block: &[u32], i: usize) -> usize
    requires block { length block.now ≡ table.rows }
    requires i { i < table.rows }
    requires low { (r : ℕ) → r < table.rows → at block.now r ≤ r }
    ensures { Found table.entry.columns table.entry.words.now (at block.now) i result }
{
    let first = block[i] as usize;
    (first..i).find(|j| alike(table, block, *j, i)).unwrap_or(i)
}

// Parts the rows into blocks, each called by its least row: two rows are in one block exactly if they do alike.
pub fn refine(table: RawTable<'_>, block: &mut [u32], fresh: &mut [u32])
    requires few { table.rows < 2 ^ 32 }
    requires block { length block.old ≡ table.rows }
    requires fresh { length fresh.old ≡ table.rows }
    ensures { Refined table.entry.columns table.entry.rows table.entry.words.now (at block.new) }
{
    block.fill(0);
    // A rule of the project: a fixpoint is a labelled loop that is left when nothing changes.
    'rounds: loop {
        for (i, least) in fresh.iter_mut().enumerate() {
            *least = least_alike(table, block, i) as u32;
        }
        if &*block == &*fresh {
            break 'rounds;
        }
        block.copy_from_slice(fresh);
    }
}
