// Words of a text, their names, and the tables that names are kept in.
#![tactic(auto)]

pub mod lookup;
pub mod names;
pub mod numbering;
pub mod words;
