// Loads a behaviour table: two files become a vocabulary and the records of a table.
#![tactic(auto)]

pub mod shape;
pub mod vocabulary;
