// A formula while it is read: nodes and event formula entries so far, and what is already known to be wrong with it.
#![tactic(auto)]

pub mod draft;
pub mod entries;
pub mod frame;
