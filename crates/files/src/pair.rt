// The two files together.
ghost use Rattle.std.specs.Prelude.{◌≡◌, drop};
ghost use Rattle.files.specs.Lines.{line_of};
ghost use Rattle.files.specs.Refusals.{refusal, file_of, fault_line};

use crate::fault::{Fault, File};
use crate::lines::line_at;

// The bytes of both files.
#[derive(Clone, Copy, Debug, PartialEq, Eq)]
pub struct Files<'a> {
    pub transitions: &'a [u8],
    pub labels: &'a [u8],
}

// The bytes from `start` up to the next byte 10 or the file's end; none past the end.
fn line_from<'a>(file: &'a [u8], start: usize) -> &'a [u8]
    ensures { result.now ≡ line_of (drop start file.now) }
{
    line_at(file, start).map_or(b"", |line| line.text)
}

impl<'a> Files<'a> {
    // The bytes of one of them.
    pub fn bytes_of(&self, file: File) -> &'a [u8]
        ensures { result.now ≡ file_of file self.now.transitions.now self.now.labels.now }
    {
        match file {
            File::Transitions => self.transitions,
            File::Labels => self.labels,
        }
    }

    // The line at fault, as a part of the file it stands in; empty where the fault has no line or the line is missing.
    pub fn failing_line(&self, fault: &Fault) -> &'a [u8]
        ensures { result.now ≡ fault_line (refusal fault.now).place self.now.transitions.now self.now.labels.now }
    {
        // A `match`: of `map_or` the check leaves open what it answers.
        match fault.place() {
            Some((file, start)) => line_from(self.bytes_of(file), start),
            None => b"",
        }
    }
}
