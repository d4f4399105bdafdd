// The row of a table from which nothing is accepted any more: of a least table there is one at most.
ghost use Rattle.std.specs.Prelude.{◌<◌, MatchBool};
ghost use Rattle.refinement.specs.DeadRows.{IsDead, DeadRow};

use machines::raw::RawTable;

// Whether a row shows 0 and leads nowhere else.
fn is_dead(table: RawTable<'_>, row: usize) -> bool
    requires { row < table.rows }
    ensures { MatchBool result (IsDead table.entry.columns table.entry.words.now row) (IsDead table.entry.columns table.entry.words.now row → ⊥) }
{
    table.shown(row) == 0 && table.cells(row).iter().all(|to| *to as usize == row)
}

// The dead row, if there is one.
pub fn dead_row(table: RawTable<'_>) -> Option<usize>
    ensures { DeadRow table.entry.columns table.entry.rows table.entry.words.now result }
{
    (0..table.rows()).find(|row| is_dead(table, *row))
}
