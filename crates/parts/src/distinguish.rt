// A system's keys as rows, and its rows in blocks.
ghost use Rattle.std.specs.Prelude.{◌≡◌, ℕ, ◌+◌, ◌*◌, ◌≤◌, length};
ghost use Rattle.machines.specs.Inside.{Inside};
ghost use Rattle.refinement.specs.Refining.{at, Refined};
ghost use Rattle.refinement.specs.Joining.{Joined};
ghost use Rattle.parts.specs.Rooms.{Few};
ghost use Rattle.parts.specs.Steps.{raw_area, block_area, Distinguishes};

use exploration::explore::explore;
use exploration::system::System;
use machines::raw::RawTable;
use refinement::quotient::quotient;
use refinement::refine::refine;

// Explores a system, and parts its rows into blocks of rows that do alike.
pub fn distinguish_in<S: System>(
    sys: &S,
    most: usize,
    raw: &mut [u32],
    block: &mut [u32],
    work: &mut [u32],
) -> Option<usize>
    requires ready { S.System.ready sys.now }
    requires most { Few most }
    requires raw { 257 * most ≤ length raw.old }
    requires block { most ≤ length block.old }
    requires work { most * S.System.width sys.now + (S.System.width sys.now + (4096 + most)) ≤ length work.old }
    ensures { Distinguishes (S.System.next sys.now) (S.System.begin sys.now) (S.System.shows sys.now) (S.System.column sys.now) (S.System.count sys.now) most raw.new block.new result }
{
    let rows = explore(sys, most, raw, work)?;
    let table = RawTable::new(raw, sys.columns(), rows);
    refine(table, &mut block[0..rows], &mut work[0..rows]);
    Some(rows)
}

// The same in one slice of work: the rows' table comes first, then their blocks.
pub fn distinguish<S: System>(sys: &S, most: usize, work: &mut [u32]) -> Option<usize>
    requires ready { S.System.ready sys.now }
    requires most { Few most }
    requires work { 257 * most + (most + (most * S.System.width sys.now + (S.System.width sys.now + (4096 + most)))) ≤ length work.old }
    ensures { Distinguishes (S.System.next sys.now) (S.System.begin sys.now) (S.System.shows sys.now) (S.System.column sys.now) (S.System.count sys.now) most (raw_area most work.new) (block_area most work.new) result }
{
    let (raw, rest) = work.split_at_mut(257 * most);
    let (block, rest) = rest.split_at_mut(most);
    distinguish_in(sys, most, raw, block, rest)
}

// Writes the table of the blocks, a row for each; in `names` the blocks are numbered.
pub fn join_blocks_in(
    columns: usize,
    rows: usize,
    raw: &[u32],
    block: &[u32],
    names: &mut [u32],
    tables: &mut [u32],
) -> usize
    requires few { Few rows }
    requires inside { Inside columns rows raw.now }
    requires block { rows ≤ length block.now }
    requires refined { Refined columns rows raw.now (at block.now) }
    requires names { rows ≤ length names.old }
    requires tables { 257 * rows ≤ length tables.old }
    ensures { Joined columns rows result raw.now tables.new }
{
    quotient(RawTable::new(raw, columns, rows), block, names, tables)
}

// The same of the blocks that were found in one slice of work.
pub fn join_blocks(
    columns: usize,
    rows: usize,
    most: usize,
    work: &mut [u32],
    tables: &mut [u32],
) -> usize
    requires rows { rows ≤ most }
    requires most { Few most }
    requires inside { Inside columns rows (raw_area most work.old) }
    requires refined { Refined columns rows (raw_area most work.old) (at (block_area most work.old)) }
    requires work { 257 * most + (most + most) ≤ length work.old }
    requires tables { 257 * most ≤ length tables.old }
    ensures { Joined columns rows result (raw_area most work.old) tables.new }
{
    let (raw, rest) = work.split_at_mut(257 * most);
    let (block, names) = rest.split_at_mut(most);
    join_blocks_in(columns, rows, raw, block, names, tables)
}
