// Feeding any numbers as a table: refused if they are none, exact if they are one.
ghost use Rattle.std.specs.Prelude.{◌<◌};
ghost use Rattle.patterns.specs.Feeding.{FedSays, FedPost};

use machines::table::{Row, Table, is_table};

// Why a piece was not read: the numbers are no table or have no such row, or there is too little room for the bits.
#[derive(Clone, Copy, PartialEq, Debug)]
pub enum FeedError {
    NoTable,
    Full,
}

// Reads a piece from a row of a table that was found sound: the row after it. Looks at no cell that isn't on the way.
pub fn feed_valid(
    table: Table<'_>,
    row: Row,
    piece: &[u8],
    ends: &mut [u32],
) -> Result<Row, FeedError>
    requires { row.0 < table.rows }
    ensures { FedSays table.entry.rows table.entry.words.now row.0 piece.now ends.old ends.new result }
{
    if ends.len() < piece.len() {
        return Err(FeedError::Full);
    }
    Ok(table.feed(row, piece, ends))
}

// Reads a piece from a row of whatever numbers are lent as a table: the row after it.
pub fn feed(
    table: &[u32],
    rows: usize,
    row: usize,
    piece: &[u8],
    ends: &mut [u32],
) -> Result<Row, FeedError>
    ensures { FedPost rows table.now row piece.now ends.old ends.new result }
{
    if !is_table(table, rows) || row >= rows {
        return Err(FeedError::NoTable);
    }
    feed_valid(Table::new(table, rows), Row(row), piece, ends)
}
