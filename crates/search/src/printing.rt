// The parts of the program that are no input or output: dividing the input, and the places to print.
ghost use Rattle.std.specs.Prelude.{◌≡◌, ℕ, ◌+◌, ◌<◌, ◌≤◌, length, IfOk, MatchBool};
ghost use Rattle.search.specs.Printing.{set_in, places as places_of, Rule, RuleFound};

use std::alloc::{AllocError, Global};

// The places, counted from 1, at which a pattern's bit is set; a number above 31 has none.
pub fn places(heap: Global, ends: &[u32], index: usize) -> Result<Vec<usize>, AllocError>
    ensures { IfOk result (λ v. v.items ≡ places_of index 1 ends.now) }
{
    ends.iter()
        .enumerate()
        .filter(|(_, bits)| is_set(**bits, index))
        .map(|(i, _)| i + 1)
        .collect(heap)
}

fn is_set(bits: u32, index: usize) -> bool
    ensures { result ≡ set_in bits index }
{
    index < 32 && (bits >> index) % 2 == 1
}

// Where the line that divides a list from a text begins, if there is one.
pub fn divider(input: &[u8]) -> Option<usize>
    ensures { RuleFound input.now result }
{
    let at = (0..input.len()).find(|at| is_rule(input, *at))?;
    Some(at)
}

// Whether a line of three dashes begins here.
fn is_rule(input: &[u8], at: usize) -> bool
    requires { at ≤ length input.now }
    ensures { MatchBool result (Rule input.now at) (Rule input.now at → ⊥) }
{
    let (front, rest) = input.split_at(at);
    let begins = matches!(front, [] | [.., b'\n']);
    begins && matches!(rest, [b'-', b'-', b'-'] | [b'-', b'-', b'-', b'\n', ..])
}
