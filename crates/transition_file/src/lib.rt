// The transition file: its questions, and the records that it fills.
#![tactic(auto)]

pub mod first;
pub mod questions;
pub mod reading;
pub mod scans;
pub mod writing;
