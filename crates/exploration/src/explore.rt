// Breadth-first over the keys of a system: a table with a row for each key that is reached, in the order of the first words.
ghost use Rattle.std.specs.Prelude.{◌≡◌, ℕ, ◌+◌, ◌-◌, ◌*◌, ◌^◌, ◌<◌, ◌≤◌, length, take, drop};
ghost use Rattle.machines.specs.Columns.{Columns};
ghost use Rattle.exploration.specs.Standing.{Stands, Same};
ghost use Rattle.exploration.specs.Exploring.{IsLawful, ReadTo, RowSays, Says};

use crate::index::{BUCKETS, Index};
use crate::system::System;

// Writes a row: what its key shows, and for each column the row to go to, which may be a new one.
fn explore_row<S: System>(
    sys: &S,
    columns: usize,
    row: usize,
    index: &mut Index<'_, '_, '_>,
    scratch: &mut [u32],
    table: &mut [u32],
) -> Option<()>
    requires ready { S.System.ready sys.now }
    requires lawful { IsLawful S.System sys.now }
    requires columns { Columns columns (S.System.column sys.now) (S.System.least sys.now) }
    requires count { columns ≡ S.System.count sys.now }
    requires width { index.old.size ≡ S.System.width sys.now }
    requires stands { Stands index.old }
    requires most { index.old.most < 2 ^ 32 - 1 }
    requires row { row < index.old.count }
    requires scratch { length scratch.old ≡ index.old.size }
    requires table { 257 * index.old.most ≤ length table.old }
    requires on { ReadTo S.System sys.now columns index.old row table.old }
    ensures says { RowSays S.System sys.now columns row index.new table.new result }
    ensures stands { Stands index.new }
    ensures same { Same index.old index.new }
    ensures rest { drop (257 * index.old.most) table.new ≡ drop (257 * index.old.most) table.old }
{
    let cells = &mut table[257 * row..257 * row + 257];
    cells[0] = sys.show(index.key(row));
    // By number, as a system steps by one; a loop over the cells would want them parted once more from what the row shows.
    for c in 0..columns {
        sys.step(index.key(row), c, scratch);
        let to = index.settle(scratch)?;
        cells[1 + c] = to.0 as u32;
    }
    Some(())
}

// Numbers the keys that the system reaches in an index that has none yet, and writes their rows; nothing if there are more than it has
// room for. For areas that don't lie in one slice; `scratch` is for one key.
pub fn explore_in<S: System>(
    sys: &S,
    index: &mut Index<'_, '_, '_>,
    scratch: &mut [u32],
    table: &mut [u32],
) -> Option<usize>
    requires ready { S.System.ready sys.now }
    requires width { index.old.size ≡ S.System.width sys.now }
    requires stands { Stands index.old }
    requires most { index.old.most < 2 ^ 32 - 1 }
    requires none { index.old.count ≡ 0 }
    requires scratch { index.old.size ≤ length scratch.old }
    requires table { 257 * index.old.most ≤ length table.old }
    ensures says { Says (S.System.next sys.now) (S.System.begin sys.now) (S.System.shows sys.now) (S.System.column sys.now) (S.System.count sys.now) index.old.size index.old.most index.new.keys.now table.new result }
    ensures same { Same index.old index.new }
    ensures rest { drop (257 * index.old.most) table.new ≡ drop (257 * index.old.most) table.old }
{
    let scratch = &mut scratch[..sys.size()];
    let columns = sys.columns();
    sys.start(scratch);
    let first = index.settle(scratch)?;
    let mut row = first.0;
    // No `for`: the rows become more while they are read.
    while row < index.count() {
        explore_row(sys, columns, row, index, scratch, table)?;
        row += 1;
    }
    Some(index.count())
}

// Numbers the keys that the system reaches, and writes the table of their rows; nothing if there are more than `most`.
pub fn explore<S: System>(
    sys: &S,
    most: usize,
    table: &mut [u32],
    work: &mut [u32],
) -> Option<usize>
    requires ready { S.System.ready sys.now }
    requires most { most < 2 ^ 32 - 1 }
    requires table { 257 * most ≤ length table.old }
    requires work { most * S.System.width sys.now + (S.System.width sys.now + (4096 + most)) ≤ length work.old }
    ensures says { Says (S.System.next sys.now) (S.System.begin sys.now) (S.System.shows sys.now) (S.System.column sys.now) (S.System.count sys.now) (S.System.width sys.now) most (take (most * S.System.width sys.now) work.new) table.new result }
    ensures rest { drop (257 * most) table.new ≡ drop (257 * most) table.old }
{
    let size = sys.size();
    let (keys, behind) = work.split_at_mut(most * size);
    let (scratch, behind) = behind.split_at_mut(size);
    let (heads, behind) = behind.split_at_mut(BUCKETS);
    let (links, _) = behind.split_at_mut(most);
    let mut index = Index::new(keys, size, most, heads, links);
    explore_in(sys, &mut index, scratch, table)
}
