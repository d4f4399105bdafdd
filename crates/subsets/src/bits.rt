// Sets of rows as bits in words; the dead row is never put in. That the words have a bit for a row is a clause: they are lent.
ghost use Rattle.std.specs.Prelude.{◌≡◌, ℕ, ◌+◌, ◌-◌, ◌*◌, ◌/◌, ◌%◌, ◌<◌, ◌≤◌, Option, IfSome, length, replicate};
ghost use Rattle.std.specs.Iterator.{at_most};
ghost use Rattle.subsets.specs.Sets as sets;

use machines::raw::RawTable;

// Whether q is in the set.
pub fn has(words: &[u32], q: usize) -> bool
    requires { q / 32 < length words.now }
    ensures { result ≡ sets.has words.now q }
{
    (words[q / 32] >> (q % 32)) % 2 == 1
}

// Puts q in.
pub fn add(words: &mut [u32], q: usize)
    requires { q / 32 < length words.old }
    ensures { words.new ≡ sets.add words.old q }
{
    words[q / 32] |= 1 << (q % 32);
}

// The empty set.
pub fn clear(words: &mut [u32])
    ensures { words.new ≡ replicate (length words.old) 0 }
{
    words.fill(0);
}

// Puts q in unless it is dead.
pub fn add_live(words: &mut [u32], q: usize, dead: Option<usize>)
    requires { q / 32 < length words.old }
    ensures { words.new ≡ sets.add_live words.old q dead }
{
    if dead != Some(q) {
        add(words, q);
    }
}

// The least member from q up that is in one word with q.
fn in_word(words: &[u32], q: usize) -> Option<usize>
    requires { q / 32 < length words.now }
    ensures { sets.Next words.now q (q + (32 - q % 32)) result }
{
    let rest = words[q / 32] >> (q % 32);
    if rest == 0 {
        None
    } else {
        Some(q + rest.trailing_zeros() as usize)
    }
}

// The members of a set from `at` up and below `rows`.
#[derive(Drop)]
struct Members<'a> {
    words: &'a [u32],
    at: usize,
    rows: usize,
    ghost within: { at ≤ rows },
    ghost room: { rows ≤ 32 * length words.now },
}

impl<'a> Members<'a> {
    // The members of a set below `rows`.
    fn new(words: &'a [u32], rows: usize) -> Members<'a>
        requires { rows ≤ 32 * length words.now }
        ensures { (result.words.now ≡ words.now) × (result.at ≡ 0) × (result.rows ≡ rows) }
    {
        Members { words, at: 0, rows }
    }
}

impl<'a> Iterator for Members<'a> {
    type Item = usize;

    ghost next_gives = { λ s r t. sets.Next s.words.now s.at s.rows r × IfSome r (λ q. t.at ≡ q + 1) × (t.words.now ≡ s.words.now) × (t.rows ≡ s.rows) };

    ghost remaining = { λ s. at_most (s.rows - s.at) };

    // Where the rest of a word is 0 it is passed over at once: a step isn't always one, so no `for` takes it.
    fn next(&mut self) -> Option<usize> {
        while self.at < self.rows {
            if let Some(q) = in_word(self.words, self.at) {
                if q >= self.rows {
                    return None;
                }
                self.at = q + 1;
                return Some(q);
            }
            if self.rows - self.at <= 32 - self.at % 32 {
                return None;
            }
            self.at += 32 - self.at % 32;
        }
        None
    }
}

// Where a column leads from the rows of a set.
pub fn moves(table: RawTable<'_>, dead: Option<usize>, at: usize, from: &[u32], to: &mut [u32])
    requires at { at < table.columns }
    requires from { table.rows ≤ 32 * length from.now }
    requires to { table.rows ≤ 32 * length to.old }
    ensures { to.new ≡ sets.moved table.entry.words.now dead at from.now (length to.old) table.entry.rows }
{
    clear(to);
    for q in Members::new(from, table.rows()) {
        add_live(to, table.cell(q, at), dead);
    }
}

// Row 0 too, if there is a mark.
pub fn mark_first(words: &mut [u32], mark: bool, dead: Option<usize>)
    requires { 0 < length words.old }
    ensures { words.new ≡ sets.marks mark dead words.old }
{
    if mark {
        add_live(words, 0, dead);
    }
}

// The empty set, or row 0 alone if there is a mark.
pub fn first(words: &mut [u32], mark: bool, dead: Option<usize>)
    requires { 0 < length words.old }
    ensures { words.new ≡ sets.marks mark dead (replicate (length words.old) 0) }
{
    clear(words);
    mark_first(words, mark, dead);
}

// Whether a row of the set shows 1.
pub fn accepts(table: RawTable<'_>, words: &[u32]) -> bool
    requires { table.rows ≤ 32 * length words.now }
    ensures { result ≡ sets.accepts table.entry.words.now words.now table.entry.rows }
{
    // A `for`: that the closure of `any` may be called at each member stayed open.
    for q in Members::new(words, table.rows()) {
        if table.shown(q) == 1 {
            return true;
        }
    }
    false
}
