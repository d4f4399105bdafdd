// The table of a list of patterns, one pattern more at a time.

#![tactic(auto)]

pub mod join;
pub mod last_bit;
pub mod laws;
