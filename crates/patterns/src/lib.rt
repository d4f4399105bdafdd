// Patterns over bytes, lists of them, and what a search for a list must say.

#![tactic(auto)]

ghost use Rattle.patterns.specs.Cases.{WorkedCases};

pub mod direct;
pub mod feeding;
pub mod list;
pub mod node;

pub use feeding::{FeedError, feed};

// The worked examples of docs/PATTERNS.md, as facts about the definitions.
pub fn worked_cases_stand()
    ensures { WorkedCases }
{}
