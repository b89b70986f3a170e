#![tactic(auto)]

pub mod interleaving;
mod mover;
pub mod refusal;
pub mod turns;
