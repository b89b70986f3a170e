// Certificates: claims about every node of a formula in every state, and what supports them.
#![tactic(auto)]

pub mod claim;
pub mod theorems;
