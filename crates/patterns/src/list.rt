// Reading a list's bytes: where a pattern ends, and of how many patterns they are the list.
ghost use Rattle.std.specs.Prelude.{◌≡◌, ℕ, ◌-◌, ◌<◌, length};
ghost use Rattle.std.specs.Iterator.{at_most};
ghost use Rattle.patterns.specs.Patterns.{Pattern};
ghost use Rattle.patterns.specs.Promises.{PatternAt, PatternRead, SomePattern, SomePatterns, PatternPassed, ListRead};

use crate::node::read_node;

pub const MOST_PATTERNS: usize = 32;

pub const MOST_BYTES: usize = 4096;

// Where the pattern that begins at a place ends, if one begins there.
pub fn pattern_end(list: &[u8], at: usize) -> Option<usize>
    ensures { PatternRead list.now at result }
{
    let node = read_node(list, at)?;
    let next = at + node.width();
    match node.arity() {
        0 => Some(next),
        1 => pattern_end(list, next),
        _ => {
            let second = pattern_end(list, next)?;
            pattern_end(list, second)
        }
    }
}

// Where the pattern ends that is known to begin at a place. That one begins there is a clause, here and in matching, and no ghost
// field: proofs take the pattern out of it, and a field would first want a proof that there is but one.
pub fn pattern_behind(list: &[u8], at: usize) -> usize
    requires { SomePattern list.now at }
    ensures { (p : Pattern) (stop : ℕ) → PatternAt list.now at p stop → result ≡ stop }
{
    match pattern_end(list, at) {
        Some(stop) => stop,
        None => unreachable(),
    }
}

// The places at which a list's patterns begin.
#[derive(Drop)]
pub struct Patterns<'a> {
    list: &'a [u8],
    at: usize,
}

impl<'a> Patterns<'a> {
    // From the list's beginning.
    pub fn new(list: &'a [u8]) -> Patterns<'a>
        ensures { (result.list.now ≡ list.now) × (result.at ≡ 0) }
    {
        Patterns { list, at: 0 }
    }
}

impl<'a> Iterator for Patterns<'a> {
    type Item = usize;

    ghost can_next = { λ s. SomePatterns s.list.now s.at };

    ghost next_gives = { PatternPassed };

    ghost remaining = { λ s. at_most (length s.list.now - s.at) };

    fn next(&mut self) -> Option<usize> {
        if self.at >= self.list.len() {
            return None;
        }
        let at = self.at;
        self.at = pattern_behind(self.list, at);
        Some(at)
    }
}

// Of how many patterns the bytes are the list, if they are one.
pub fn read_list(list: &[u8]) -> Option<usize>
    ensures { ListRead list.now result }
{
    if list.len() > MOST_BYTES {
        return None;
    }
    let mut at = 0;
    for count in 0..MOST_PATTERNS {
        if at == list.len() {
            return Some(count);
        }
        at = pattern_end(list, at)?;
    }
    // Not read: what stands behind so many patterns.
    if at == list.len() {
        Some(MOST_PATTERNS)
    } else {
        None
    }
}
