// What was found of some patterns.
use crate::finished::Finished;
use patterns::direct::matches;
use std::alloc::{AllocError, Global};
use std::fmt;

// Room for more rows than a table of such small patterns needs.
const MOST_ROWS: u16 = 64;

#[derive(Clone, Copy)]
pub struct Tally {
    patterns: usize,
    words: usize,
    differ: usize,
    refused: usize,
}

impl Tally {
    // Tries each pattern on each word.
    pub fn of(heap: Global, patterns: &[Vec<u8>], words: &[Vec<u8>]) -> Result<Tally, AllocError> {
        let mut tally = Tally {
            patterns: patterns.len(),
            words: 0,
            differ: 0,
            refused: 0,
        };
        for pattern in patterns {
            match Finished::of(heap, pattern.as_slice(), MOST_ROWS)? {
                Some(table) => tally.compare(pattern.as_slice(), &table, words),
                None => tally.refused = tally.refused.saturating_add(1),
            }
        }
        Ok(tally)
    }

    // Counts the words on which a pattern's table doesn't show what the definition says.
    fn compare(&mut self, pattern: &[u8], table: &Finished, words: &[Vec<u8>]) {
        let differ = words
            .iter()
            .filter(|word| matches(pattern, 0, word.as_slice()) != table.shows(word.as_slice()))
            .count();
        self.words = self.words.saturating_add(words.len());
        self.differ = self.differ.saturating_add(differ);
    }
}

impl fmt::Display for Tally {
    fn fmt<W: fmt::Write>(&self, f: &mut fmt::Formatter<W>) -> fmt::Result {
        let Tally {
            patterns,
            words,
            differ,
            refused,
        } = *self;
        write!(
            f,
            "{patterns} patterns, {words} words, {differ} differ, {refused} refused"
        )
    }
}
