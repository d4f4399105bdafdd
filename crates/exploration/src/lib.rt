// Breadth-first exploration: the keys that a deterministic system reaches become the rows of a table.

#![tactic(auto)]

pub mod explore;
pub mod index;
pub mod keys;
pub mod pairs;
pub mod system;
