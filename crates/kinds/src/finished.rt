// The finished table of one pattern.
ghost use Rattle.std.specs.Prelude.{◌≡◌, ℕ, ◌<◌, slice_index, IfOk, IfSome};
ghost use Rattle.machines.specs.Inside.{Inside};
ghost use Rattle.making.specs.Planning.{Planned};
ghost use Rattle.parts.specs.Steps.{Roomy};

use machines::columns::ByteColumns;
use machines::raw::RawTable;
use making::plan::Plan;
use making::work_out::work_out;
use patterns::list::{MOST_BYTES, pattern_end};
use plans::columns::number_columns;
use plans::extents::{Extents, measure};
use std::alloc::{AllocError, Global};

// Working out a pattern needs no more tables at a time.
const TABLES: usize = 12;

// So many rows over columns of bytes, and the column of each byte.
#[derive(Drop)]
pub struct Finished {
    words: Vec<u32>,
    column: [u32; 256],
    columns: usize,
    rows: usize,
    ghost inside: { Inside columns rows words.items },
    ghost within: { (b : ℕ) → b < 256 → slice_index column b < columns },
}

impl Finished {
    // The table of the pattern that a list begins with, if there is one and it fits into so many rows.
    pub fn of(heap: Global, list: &[u8], most: u16) -> Result<Option<Finished>, AllocError> {
        if list.len() > MOST_BYTES {
            return Ok(None);
        }
        let mut ends = vec![in heap; 0u32; list.len()]?;
        let mut tables = vec![in heap; 0u32; list.len()]?;
        measure(list, ends.as_mut_slice(), tables.as_mut_slice());
        let mut cuts = [0u32; 257];
        let mut column = [0u32; 256];
        let mut least = [0u32; 256];
        let columns = number_columns(list, &mut cuts, &mut column, &mut least);
        let extents = Extents {
            ends: ends.as_slice(),
            tables: tables.as_slice(),
        };
        let byte_columns = ByteColumns {
            count: columns,
            column: &column,
            least: &least,
        };
        let plan = make_plan(list, extents, byte_columns);
        let Some((words, rows)) = work_out_first(heap, plan, most as usize)? else {
            return Ok(None);
        };
        Ok(Some(Finished {
            words,
            column,
            columns,
            rows,
        }))
    }

    // How many rows there are.
    pub fn rows(&self) -> usize
        ensures { result ≡ self.now.rows }
    {
        self.rows
    }

    // Whether 1 is shown after a word and not 0; none if another number is.
    pub fn shows(&self, word: &[u8]) -> Option<bool> {
        let table = RawTable::new(self.words.as_slice(), self.columns, self.rows);
        let mut row = 0;
        for byte in word {
            row = table.cell(row, self.column[*byte as usize] as usize);
        }
        match table.shown(row) {
            0 => Some(false),
            1 => Some(true),
            _ => None,
        }
    }
}

// A plan from what it holds. A function, as in it all are borrowed for as long as each other.
fn make_plan<'a>(list: &'a [u8], extents: Extents<'a>, columns: ByteColumns<'a>) -> Plan<'a>
    requires { Planned list.now extents.ends.now extents.tables.now columns.count columns.column.now columns.least.now }
    ensures { (result.list.now ≡ list.now) × (result.columns.count ≡ columns.entry.count) }
{
    Plan {
        list,
        extents,
        columns,
    }
}

// The words of the table of the pattern that the list begins with, and how many rows it has.
fn work_out_first(
    heap: Global,
    plan: Plan<'_>,
    most: usize,
) -> Result<Option<(Vec<u32>, usize)>, AllocError>
    requires { most < 65536 }
    ensures { IfOk result (λ found. IfSome found (λ table. Inside plan.entry.columns.count table.1 table.0.items)) }
{
    let Some(_end) = pattern_end(plan.list, 0) else {
        return Ok(None);
    };
    let mut stack = vec![in heap; 0u32; TABLES * (257 * most)]?;
    let mut work = vec![in heap; 0u32; work_room(most)]?;
    let Some(rows) = work_out(plan, 0, most, stack.as_mut_slice(), work.as_mut_slice()) else {
        return Ok(None);
    };
    Ok(Some((stack, rows)))
}

// How many words the work for so many rows needs.
fn work_room(most: usize) -> usize
    requires { most < 65536 }
    ensures { Roomy most result }
{
    let sets = most / 32 + 2;
    257 * most + (most + (most * sets + (sets + (4096 + most))))
}
