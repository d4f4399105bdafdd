// Partition refinement: rows that do alike become one, and the dead row is found.

#![tactic(auto)]

pub mod dead_row;
pub mod quotient;
pub mod refine;
