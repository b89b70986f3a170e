// The label file: its questions, and the proposition sets that it fills.
#![tactic(auto)]

pub mod first;
pub mod reading;
pub mod scans;
pub mod writing;
