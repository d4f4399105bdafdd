// The order of words: shorter ones first, among equally long ones by bytes.
ghost use Rattle.std.specs.Prelude.{◌≡◌};
ghost use Rattle.std.specs.Ordering.{MatchOrdering};
ghost use Rattle.machines.specs.Words.{Less as Before, StrictTotal};

use std::cmp::Ordering;

// Which of two words comes first.
pub fn shortlex(left: &[u8], right: &[u8]) -> Ordering
    ensures { MatchOrdering result (Before left.now right.now) (left.now ≡ right.now) (Before right.now left.now) }
{
    if left.len() < right.len() {
        return Ordering::Less;
    }
    if right.len() < left.len() {
        return Ordering::Greater;
    }
    // A rule of the project: an order is a loop that yields by break.
    let mut i = 0;
    loop {
        if i == left.len() {
            break Ordering::Equal;
        }
        if left[i] < right[i] {
            break Ordering::Less;
        }
        if right[i] < left[i] {
            break Ordering::Greater;
        }
        i += 1;
    }
}

// Shortlex is a strict total order, so that a class has one first word and rows one numbering.
pub fn shortlex_is_total()
    ensures { StrictTotal }
{}
