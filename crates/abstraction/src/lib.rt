#![tactic(auto)]

pub mod abstraction;
pub mod refusal;
pub mod rule;
pub mod sheet;
mod sheets;
pub mod showing;
