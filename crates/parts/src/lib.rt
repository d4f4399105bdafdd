// Each kind of part of a pattern: what must be told apart at its top, and its finished table from those of its parts.

#![tactic(auto)]

pub mod distinguish;
pub mod leaf;
pub mod leaf_states;
pub mod part;
pub mod steps;
pub mod told;
