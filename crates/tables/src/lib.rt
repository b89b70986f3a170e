#![tactic(auto)]

mod span;
mod spanned;
pub mod table;
