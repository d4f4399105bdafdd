// The step of the work at each kind of part. The table that comes of it stands at the front of `tables`, where a part's may have stood.
// What is lent, and where parts stand in it, is said by clauses: no ghost field stands beside a `&mut`, and a struct of what is lent would
// be taken apart at each call, which is lent another end of the tables. Each step ends in two calls: the one reads parts in `tables`, the
// other writes there. The steps over areas are not inlined: a pattern is worked out by calls within calls, and each would carry a step's
// frame.
ghost use Rattle.std.specs.Prelude.{◌≡◌, ℕ, ◌*◌, ◌≤◌, length, if◌then◌else◌, nat_eq, slice_index};
ghost use Rattle.patterns.specs.Patterns.{seq, star};
ghost use Rattle.parts.specs.Combining.{PartInside, joined_pattern, Changes, Combines, Complemented};
ghost use Rattle.parts.specs.Leaves.{leaf_pattern, SoundLeaf, LeafColumns};
ghost use Rattle.parts.specs.Rooms.{Rooms, RoomsApart};
ghost use Rattle.parts.specs.Steps.{StepSays};

use crate::distinguish::{distinguish_in, join_blocks_in};
use crate::leaf::Leaf;
use crate::leaf_states::LeafStates;
use crate::part::Part;
use exploration::pairs::{Connective, Pair};
use machines::columns::ByteColumns;
use refinement::dead_row::dead_row;
use subsets::follow::Follow;
use subsets::repeat::Repeat;

// A pattern that has no parts.
#[inline(never)]
pub fn leaf_in(
    leaf: Leaf,
    columns: ByteColumns<'_>,
    most: usize,
    tables: &mut [u32],
    raw: &mut [u32],
    block: &mut [u32],
    work: &mut [u32],
) -> Option<usize>
    requires room { RoomsApart most (length tables.old) (length raw.old) (length block.old) (length work.old) }
    requires long { columns.count ≤ length columns.least.now }
    requires sound { SoundLeaf leaf }
    requires respected { LeafColumns (λ b. slice_index columns.column.now b) (λ j. slice_index columns.least.now j) leaf }
    ensures { StepSays (λ b. slice_index columns.entry.column.now b) columns.entry.count (leaf_pattern leaf) most tables.new result }
{
    let rows = distinguish_in(&LeafStates { leaf, columns }, most, raw, block, work)?;
    Some(join_blocks_in(columns.count, rows, raw, block, work, tables))
}

// The same in one slice of work.
pub fn leaf(
    leaf: Leaf,
    columns: ByteColumns<'_>,
    most: usize,
    tables: &mut [u32],
    work: &mut [u32],
) -> Option<usize>
    requires room { Rooms most (length tables.old) (length work.old) }
    requires long { columns.count ≤ length columns.least.now }
    requires sound { SoundLeaf leaf }
    requires respected { LeafColumns (λ b. slice_index columns.column.now b) (λ j. slice_index columns.least.now j) leaf }
    ensures { StepSays (λ b. slice_index columns.entry.column.now b) columns.entry.count (leaf_pattern leaf) most tables.new result }
{
    let (raw, rest) = work.split_at_mut(257 * most);
    let (block, rest) = rest.split_at_mut(most);
    leaf_in(leaf, columns, most, tables, raw, block, rest)
}

// One of two parts has to match, or both have to.
#[inline(never)]
pub fn connect_in(
    join: Connective,
    first: Part,
    second: Part,
    columns: ByteColumns<'_>,
    most: usize,
    tables: &mut [u32],
    raw: &mut [u32],
    block: &mut [u32],
    work: &mut [u32],
) -> Option<usize>
    requires room { RoomsApart most (length tables.old) (length raw.old) (length block.old) (length work.old) }
    requires first { PartInside columns.count first tables.old }
    requires second { PartInside columns.count second tables.old }
    ensures { Combines (joined_pattern join) (λ b. slice_index columns.entry.column.now b) columns.entry.count first second most tables.old tables.new result }
{
    let pair = Pair {
        join,
        left: first.table(columns.count, tables),
        right: second.table(columns.count, tables),
        columns,
    };
    let rows = distinguish_in(&pair, most, raw, block, work)?;
    Some(join_blocks_in(columns.count, rows, raw, block, work, tables))
}

// The same in one slice of work.
pub fn connect(
    join: Connective,
    first: Part,
    second: Part,
    columns: ByteColumns<'_>,
    most: usize,
    tables: &mut [u32],
    work: &mut [u32],
) -> Option<usize>
    requires room { Rooms most (length tables.old) (length work.old) }
    requires first { PartInside columns.count first tables.old }
    requires second { PartInside columns.count second tables.old }
    ensures { Combines (joined_pattern join) (λ b. slice_index columns.entry.column.now b) columns.entry.count first second most tables.old tables.new result }
{
    let (raw, rest) = work.split_at_mut(257 * most);
    let (block, rest) = rest.split_at_mut(most);
    connect_in(join, first, second, columns, most, tables, raw, block, rest)
}

// One part after the other: one read on, and the other from each place where the first matches.
#[inline(never)]
pub fn sequence_in(
    first: Part,
    second: Part,
    columns: ByteColumns<'_>,
    most: usize,
    tables: &mut [u32],
    raw: &mut [u32],
    block: &mut [u32],
    work: &mut [u32],
) -> Option<usize>
    requires room { RoomsApart most (length tables.old) (length raw.old) (length block.old) (length work.old) }
    requires first { PartInside columns.count first tables.old }
    requires second { PartInside columns.count second tables.old }
    requires few { second.rows ≤ most }
    ensures { Combines seq (λ b. slice_index columns.entry.column.now b) columns.entry.count first second most tables.old tables.new result }
{
    let back = second.table(columns.count, tables);
    let follow = Follow {
        front: first.table(columns.count, tables),
        back,
        dead: dead_row(back),
        columns,
    };
    let rows = distinguish_in(&follow, most, raw, block, work)?;
    Some(join_blocks_in(columns.count, rows, raw, block, work, tables))
}

// The same in one slice of work.
pub fn sequence(
    first: Part,
    second: Part,
    columns: ByteColumns<'_>,
    most: usize,
    tables: &mut [u32],
    work: &mut [u32],
) -> Option<usize>
    requires room { Rooms most (length tables.old) (length work.old) }
    requires first { PartInside columns.count first tables.old }
    requires second { PartInside columns.count second tables.old }
    requires few { second.rows ≤ most }
    ensures { Combines seq (λ b. slice_index columns.entry.column.now b) columns.entry.count first second most tables.old tables.new result }
{
    let (raw, rest) = work.split_at_mut(257 * most);
    let (block, rest) = rest.split_at_mut(most);
    sequence_in(first, second, columns, most, tables, raw, block, rest)
}

// One part any number of times: read from the start, and again from each place where it matches.
#[inline(never)]
pub fn repetition_in(
    part: Part,
    columns: ByteColumns<'_>,
    most: usize,
    tables: &mut [u32],
    raw: &mut [u32],
    block: &mut [u32],
    work: &mut [u32],
) -> Option<usize>
    requires room { RoomsApart most (length tables.old) (length raw.old) (length block.old) (length work.old) }
    requires part { PartInside columns.count part tables.old }
    requires few { part.rows ≤ most }
    ensures { Changes star (λ b. slice_index columns.entry.column.now b) columns.entry.count part most tables.old tables.new result }
{
    let table = part.table(columns.count, tables);
    let repeat = Repeat {
        table,
        dead: dead_row(table),
        columns,
    };
    let rows = distinguish_in(&repeat, most, raw, block, work)?;
    Some(join_blocks_in(columns.count, rows, raw, block, work, tables))
}

// The same in one slice of work.
pub fn repetition(
    part: Part,
    columns: ByteColumns<'_>,
    most: usize,
    tables: &mut [u32],
    work: &mut [u32],
) -> Option<usize>
    requires room { Rooms most (length tables.old) (length work.old) }
    requires part { PartInside columns.count part tables.old }
    requires few { part.rows ≤ most }
    ensures { Changes star (λ b. slice_index columns.entry.column.now b) columns.entry.count part most tables.old tables.new result }
{
    let (raw, rest) = work.split_at_mut(257 * most);
    let (block, rest) = rest.split_at_mut(most);
    repetition_in(part, columns, most, tables, raw, block, rest)
}

fn turn(output: u32) -> u32
    ensures { result ≡ (if nat_eq output 0 then 1 else 0) }
{
    u32::from(output == 0)
}

// Turns the outputs of the first rows.
pub fn complement(rows: usize, tables: &mut [u32])
    requires { 257 * rows ≤ length tables.old }
    ensures { Complemented rows tables.old tables.new }
{
    // By number: nothing is known of what was written through `chunks_exact_mut`.
    for i in 0..rows {
        tables[257 * i] = turn(tables[257 * i]);
    }
}
