// The two files: their lines, and what is wrong with them.
#![tactic(auto)]

pub mod fault;
pub mod line;
pub mod lines;
pub mod pair;
pub mod shown;
