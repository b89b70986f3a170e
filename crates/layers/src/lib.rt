#![tactic(auto)]

pub mod hop;
#[cfg(test)]
mod tests;
