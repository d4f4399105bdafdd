// The table of a list, begun with no pattern and made longer by one pattern at a time.
ghost use Rattle.std.specs.Prelude.{◌≡◌, ℕ, ◌+◌, ◌-◌, ◌*◌, ◌^◌, ◌<◌, ◌≤◌, length, drop, slice_index};
ghost use Rattle.listing.specs.Listed.{JoinSays, EmptySays};

use crate::last_bit::LastBit;
use exploration::explore::explore;
use exploration::pairs::Pair;
use machines::columns::ByteColumns;
use machines::raw::RawTable;

// Writes the table of no patterns: one row, which shows no bit and leads to itself.
pub fn empty_list(columns: usize, table: &mut [u32])
    requires few { columns ≤ 256 }
    requires table { 257 ≤ length table.old }
    ensures says { EmptySays columns table.new }
    ensures rest { drop 257 table.new ≡ drop 257 table.old }
{
    table[0..1 + columns].fill(0);
}

// Joins one more pattern, searched anywhere, to the table of a list's front; nothing if there are more rows than `most`.
// The pairs of least tables' rows are told apart already, so that their table is the least one.
pub fn join_pattern(
    front: RawTable<'_>,
    next: RawTable<'_>,
    index: u32,
    columns: ByteColumns<'_>,
    most: usize,
    table: &mut [u32],
    work: &mut [u32],
) -> Option<usize>
    requires front { front.columns ≡ columns.count }
    requires next { next.columns ≡ columns.count }
    requires index { index < 32 }
    requires most { most < 2 ^ 32 - 1 }
    requires table { 257 * most ≤ length table.old }
    requires work { 3 * most + (2 + 4096) ≤ length work.old }
    ensures says { JoinSays (λ b. slice_index columns.entry.column.now b) columns.entry.count most index front.entry.rows front.entry.words.now next.entry.rows next.entry.words.now table.new result }
    ensures rest { drop (257 * most) table.new ≡ drop (257 * most) table.old }
{
    let pair = Pair {
        join: LastBit { index },
        left: front,
        right: next,
        columns,
    };
    explore(&pair, most, table, work)
}
