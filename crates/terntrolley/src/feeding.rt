// Feeding, for callers in C: what is lent comes one by one, and a validated table has a call of its own, as the header says.
ghost use Rattle.std.specs.Prelude.{◌<◌, ◌≡◌};
ghost use Rattle.machines.specs.Tables.{SoundTable};
ghost use Rattle.terntrolley.specs.Codes.{fed_code, fed_next, FedCoded, Validated};

use machines::table::{Row, Table, is_table};
use patterns::feeding::feed_valid;
use patterns::{FeedError, feed};

// The code of an answer; the row, if there is one, goes to `next`. The numbers are the C interface's.
fn hand_out(fed: Result<Row, FeedError>, next: &mut usize) -> u32
    ensures code { result ≡ fed_code fed }
    ensures next { next.new ≡ fed_next next.old fed }
{
    match fed {
        Ok(row) => {
            *next = row.0;
            0
        }
        Err(FeedError::NoTable) => 1,
        Err(FeedError::Full) => 2,
    }
}

// Feeds any numbers as a table: 0 read, 1 no table, 2 full.
#[unsafe(no_mangle)]
pub extern "C" fn terntrolley_feed(
    table: &[u32],
    rows: usize,
    row: usize,
    piece: &[u8],
    ends: &mut [u32],
    next: &mut usize,
) -> u32
    ensures { FedCoded rows table.now row piece.now ends.old ends.new next.old next.new result }
{
    let fed = feed(table, rows, row, piece, ends);
    hand_out(fed, next)
}

// Looks at a table once: 0 if it is one, 1 if it is none.
#[unsafe(no_mangle)]
pub extern "C" fn terntrolley_validate(table: &[u32], rows: usize) -> u32
    ensures { Validated rows table.now result }
{
    u32::from(!is_table(table, rows))
}

// Feeds a table that was looked at, from one of its rows: 0 read, 2 full.
#[unsafe(no_mangle)]
pub extern "C" fn terntrolley_feed_valid(
    table: &[u32],
    rows: usize,
    row: usize,
    piece: &[u8],
    ends: &mut [u32],
    next: &mut usize,
) -> u32
    requires sound { SoundTable rows table.now }
    requires inside { row < rows }
    ensures { FedCoded rows table.now row piece.now ends.old ends.new next.old next.new result }
{
    let fed = feed_valid(Table::new(table, rows), Row(row), piece, ends);
    hand_out(fed, next)
}
