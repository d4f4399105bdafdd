// A list of patterns becomes the one table, or is refused exactly.

#![tactic(auto)]

pub mod binary;
pub mod order;
pub mod plan;
pub mod work_out;
