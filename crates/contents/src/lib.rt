// What the lines of the two files hold: the names in a label, the line of names, the numbers listed for a state.
#![tactic(auto)]

pub mod label;
pub mod marks;
pub mod names;
