#![tactic(auto)]

pub mod largest;
pub mod limits;
pub mod listing;
pub mod sets;
pub mod system;
pub mod transition;
