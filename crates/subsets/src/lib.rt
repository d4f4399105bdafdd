// Systems whose keys are a row and a set of live rows: the subset construction.

#![tactic(auto)]

mod bits;
pub mod follow;
pub mod repeat;
