// Words and tables as such: what this crate proves knows nothing of patterns.

#![tactic(auto)]

pub mod columns;
pub mod expand;
pub mod inside;
pub mod laws;
pub mod order;
pub mod raw;
pub mod stream;
pub mod table;
