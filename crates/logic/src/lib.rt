// Formulas: event formulas, the kinds of nodes, and what they mean over a system.
#![tactic(auto)]

pub mod derived;
pub mod events;
pub mod limits;
pub mod meaning;
pub mod nodes;
