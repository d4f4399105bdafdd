// What is known of a list before it is worked out: the columns of its bytes, where its patterns end, and how many tables they need.

#![tactic(auto)]

pub mod columns;
pub mod extents;
