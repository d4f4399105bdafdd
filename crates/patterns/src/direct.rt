// Matching and searching by definition: slow on purpose, and the measure of everything faster.
ghost use Rattle.std.specs.Prelude.{◌≡◌, ℕ, ◌<◌, length};
ghost use Rattle.patterns.specs.Patterns.{single};
ghost use Rattle.patterns.specs.Promises.{SomePattern, SomeList, MatchesAt, SequenceMatches, StarMatches, EndsAt, BitsAfter, MatchedPost, SearchedPost};

use crate::list::{Patterns, pattern_behind, read_list};
use crate::node::{Node, read_node};

// Why a text was not searched: the bytes are no list, or there is too little room for the bits.
#[derive(Clone, Copy, PartialEq, Debug)]
pub enum SearchError {
    NoList,
    Full,
}

// Whether the pattern at a place of the list matches the word.
#[cycle(matching)]
fn matches_at(list: &[u8], at: usize, word: &[u8]) -> bool
    requires { SomePattern list.now at }
    ensures { MatchesAt list.now at word.now result }
{
    let Some(node) = read_node(list, at) else {
        return unreachable();
    };
    let first = at + node.width();
    match node {
        Node::Nothing => false,
        Node::Empty => word.is_empty(),
        Node::Range(low, high) => in_range(low, high, word),
        Node::Complement => !matches_at(list, first, word),
        Node::Star => star_matches(list, first, word),
        Node::Sequence => sequence_matches(list, first, pattern_behind(list, first), word),
        Node::Union => matches_at(list, first, word)
            || matches_at(list, pattern_behind(list, first), word),
        Node::Intersection => matches_at(list, first, word)
            && matches_at(list, pattern_behind(list, first), word),
    }
}

// Whether the word is one byte from `low` to `high`.
fn in_range(low: u8, high: u8, word: &[u8]) -> bool
    ensures { result ≡ single low high word.now }
{
    match word {
        [x] => low <= *x && *x <= high,
        _ => false,
    }
}

// Whether some front of the word matches the first pattern and the rest the second.
#[cycle(matching)]
fn sequence_matches(list: &[u8], first: usize, second: usize, word: &[u8]) -> bool
    requires first { SomePattern list.now first }
    requires second { SomePattern list.now second }
    requires order { first < second }
    ensures { SequenceMatches list.now first second word.now result }
{
    // A loop: in a cycle of calls a closure for `any` would have to say the contract again.
    for cut in 0..=word.len() {
        if matches_at(list, first, &word[0..cut]) && matches_at(list, second, &word[cut..]) {
            return true;
        }
    }
    false
}

// Whether the word is empty, or a front that isn't matches the pattern and the rest is again such a word.
#[cycle(matching)]
fn star_matches(list: &[u8], at: usize, word: &[u8]) -> bool
    requires { SomePattern list.now at }
    ensures { StarMatches list.now at word.now result }
{
    if word.is_empty() {
        return true;
    }
    // A loop, as above.
    for cut in 1..=word.len() {
        if matches_at(list, at, &word[0..cut]) && star_matches(list, at, &word[cut..]) {
            return true;
        }
    }
    false
}

// Whether the pattern at a place of the list ends after the text: some last part of the text matches it.
fn ends_after(list: &[u8], at: usize, text: &[u8]) -> bool
    requires { SomePattern list.now at }
    ensures { EndsAt list.now at text.now result }
{
    (0..=text.len()).any(|start| matches_at(list, at, &text[start..]))
}

// The patterns of the list that end after the text, as bits, the first lowest.
fn bits_after(list: &[u8], text: &[u8]) -> u32
    requires { SomeList list.now }
    ensures { BitsAfter list.now text.now result }
{
    let mut bits = 0;
    for (index, at) in Patterns::new(list).enumerate() {
        if ends_after(list, at, text) {
            bits |= 1 << index;
        }
    }
    bits
}

// Whether the pattern with this number in the list matches the word; none if the bytes are no list or have no such pattern.
pub fn matches(list: &[u8], index: usize, word: &[u8]) -> Option<bool>
    ensures { MatchedPost list.now index word.now result }
{
    let count = read_list(list)?;
    if index >= count {
        return None;
    }
    // A loop: `nth` of the list's patterns would read the one that it gives, too.
    let mut at = 0;
    for _before in 0..index {
        at = pattern_behind(list, at);
    }
    Some(matches_at(list, at, word))
}

// Searches the text for the list's patterns: into `ends` go the bits after each byte.
pub fn search(list: &[u8], text: &[u8], ends: &mut [u32]) -> Result<(), SearchError>
    ensures { SearchedPost list.now text.now ends.old ends.new result }
{
    read_list(list).ok_or(SearchError::NoList)?;
    if ends.len() < text.len() {
        return Err(SearchError::Full);
    }
    for (i, bits) in ends[..text.len()].iter_mut().enumerate() {
        *bits = bits_after(list, &text[..i + 1]);
    }
    Ok(())
}
