// How the time of exploring and refining grows with the rows: the window over the last letters, for 64 to 4,096 rows. Without an
// argument each is done once and only what was found is printed. With one, each is done a hundred times and the microseconds of all
// turns are printed too, so that they can be held to what a clock outside says of the whole run.

#![tactic(auto)]

mod window;

use exploration::explore::explore;
use exploration::index::BUCKETS;
use machines::raw::RawTable;
use refinement::refine::refine;
use std::alloc::{AllocError, Global};
use std::time::Instant;
use std::{env, io};
use window::Window;

const COLUMNS: usize = 2;

fn main(rt: HostRuntime) -> io::Result<()> {
    let timed = env::args(&rt)?.count() > 1;
    for size in [64u32, 128, 256, 512, 1024, 2048, 4096] {
        measure(&rt, size, timed)?;
    }
    Ok(())
}

// Explores and refines the window of one size.
fn measure(rt: &HostRuntime, size: u32, timed: bool) -> io::Result<()> {
    let heap = rt.alloc();
    let turns = if timed { 100u32 } else { 1u32 };
    let mut table = vec![in heap; 0u32; 257 * size as usize]?;
    let mut rows = 0;
    let begun = Instant::now(rt)?;
    for _turn in 0..turns {
        // What wasn't done is printed as 0, here and below.
        rows = explored(heap, size, table.as_mut_slice())?.unwrap_or(0);
    }
    let exploring = begun.elapsed(rt)?.as_micros();
    let mut blocks = 0;
    let begun = Instant::now(rt)?;
    for _turn in 0..turns {
        blocks = refined(heap, rows, table.as_slice())?.unwrap_or(0);
    }
    let refining = begun.elapsed(rt)?.as_micros();
    if timed {
        println!(rt;
            "{rows} rows, {blocks} blocks: {exploring} us exploring, {refining} us refining, {turns} turns"
        )
    } else {
        println!(rt; "{rows} rows, {blocks} blocks")
    }
}

// How many rows the window's table has, which is written, if there is room for it.
fn explored(heap: Global, size: u32, table: &mut [u32]) -> Result<Option<usize>, AllocError> {
    let most = size as usize;
    let mut work = vec![in heap; 0u32; 2 * most + (1 + BUCKETS)]?;
    if size == 0 || size > 65536 || table.len() < 257 * most {
        return Ok(None);
    }
    Ok(explore(&Window { size }, most, table, work.as_mut_slice()))
}

// Into how many blocks the rows fall, if they are a table's.
fn refined(heap: Global, rows: usize, table: &[u32]) -> Result<Option<usize>, AllocError> {
    let Some(table) = RawTable::checked(table, COLUMNS, rows) else {
        return Ok(None);
    };
    if rows > 65536 {
        return Ok(None);
    }
    let mut block = vec![in heap; 0u32; rows]?;
    let mut fresh = vec![in heap; 0u32; rows]?;
    refine(table, block.as_mut_slice(), fresh.as_mut_slice());
    let firsts = block
        .iter()
        .enumerate()
        .filter(|(i, least)| **least as usize == *i);
    Ok(Some(firsts.count()))
}
