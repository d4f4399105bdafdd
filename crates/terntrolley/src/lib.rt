// The calls as C sees them: thin, with 0 for success and a code for each error, and results through a last pointer.

#![tactic(auto)]

pub mod feeding;
