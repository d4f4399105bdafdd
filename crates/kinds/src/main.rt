// All small patterns are tried: what their finished tables show after each short word against matching by definition. The program
// says for each number of nodes how many patterns there are, how many words were compared, how many of these differ, and how many
// patterns were refused. Its tests hold the rows of a table to the classes worked out by hand.

#![tactic(auto)]

mod finished;
#[cfg(test)]
mod rows;
mod small;
mod tally;
mod words;

use std::io;
use tally::Tally;

const MOST_NODES: usize = 5;

const LONGEST_WORD: usize = 6;

fn main(rt: HostRuntime) -> io::Result<()> {
    let heap = rt.alloc();
    let words = words::up_to(heap, LONGEST_WORD)?;
    let patterns = small::by_nodes(heap, MOST_NODES)?;
    for (i, patterns) in patterns.iter().enumerate() {
        let tally = Tally::of(heap, patterns.as_slice(), words.as_slice())?;
        let nodes = i + 1;
        println!(rt; "nodes {nodes}: {tally}")?;
    }
    Ok(())
}
