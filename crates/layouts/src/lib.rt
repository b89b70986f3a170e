// Numbers and the layouts of the lines of the two files.
#![tactic(auto)]

ghost use Rattle.layouts.specs.Printed.{ReadsAsWritten};

pub mod fault;
pub mod labels;
pub mod number;
pub mod pieces;
pub mod transitions;

// A line reads as a content exactly if it is the printed form of that content, in each of the four layouts.
pub fn lines_read_as_written()
    ensures { ReadsAsWritten }
{}
