// Why a load is refused, and the line that is at fault.
ghost use Rattle.std.specs.Prelude.{◌≡◌, Some};
ghost use Rattle.files.specs.Refusals.{refusal};
ghost use Rattle.files.specs.Wording.{file_name, complaint};

use std::error::Error;
use std::fmt;

#[derive(Clone, Copy, Debug, PartialEq, Eq)]
pub enum File {
    Transitions,
    Labels,
}

// The first question of a load that gets a no. Where a line is at fault, `start` is the byte at which it starts.
#[derive(Clone, Copy, Debug, PartialEq, Eq)]
pub enum Fault {
    TransitionsTooLong,
    HeaderLine { start: usize },
    HeaderNumbers,
    TransitionLine { start: usize },
    TransitionLabel { start: usize },
    TransitionStates { start: usize },
    TooManyEvents,
    LabelsTooLong,
    NamesLine { start: usize },
    StateLine { start: usize },
    TooManyPropositions,
    TablesTooShort,
}

// A file goes by the name that it has in its folder.
impl fmt::Display for File {
    ghost output = { λ f. Some (file_name f) };

    fn fmt<W: fmt::Write>(&self, f: &mut fmt::Formatter<W>) -> fmt::Result {
        match self {
            File::Transitions => write!(f, "model.aut"),
            File::Labels => write!(f, "model.lab"),
        }
    }
}

// A refusal is shown in words.
impl fmt::Display for Fault {
    ghost output = { λ f. Some (complaint f) };

    fn fmt<W: fmt::Write>(&self, f: &mut fmt::Formatter<W>) -> fmt::Result {
        f.write_str(self.complaint())
    }
}

impl Error for Fault {}

// The number of the question.
impl From<Fault> for u8 {
    ghost from_gives = { λ f n. n ≡ (refusal f).number };

    fn from(fault: Fault) -> u8 {
        match fault {
            Fault::TransitionsTooLong => 1,
            Fault::HeaderLine { .. } => 2,
            Fault::HeaderNumbers => 3,
            Fault::TransitionLine { .. } => 4,
            Fault::TransitionLabel { .. } => 5,
            Fault::TransitionStates { .. } => 6,
            Fault::TooManyEvents => 7,
            Fault::LabelsTooLong => 8,
            Fault::NamesLine { .. } => 9,
            Fault::StateLine { .. } => 10,
            Fault::TooManyPropositions => 11,
            Fault::TablesTooShort => 12,
        }
    }
}

impl Fault {
    // What is wrong, as a mechanic would say it.
    fn complaint(&self) -> &'static str
        ensures { result.now ≡ complaint self.now }
    {
        match self {
            Fault::TransitionsTooLong => "model.aut is longer than 65535 bytes",
            Fault::HeaderLine { .. } => {
                "the first line should read: des (INITIAL, TRANSITIONS, STATES)"
            }
            Fault::HeaderNumbers => {
                "model.aut: there should be 1 to 256 states and at most 1024 transitions, and the initial state should be one of the states"
            }
            Fault::TransitionLine { .. } => {
                "here a line should read: (FROM, \"LABEL\", TO), as many of them as the first line says, and nothing after them"
            }
            Fault::TransitionLabel { .. } => "the label should be i, or 1 to 8 names joined by ;",
            Fault::TransitionStates { .. } => {
                "the transition leaves or reaches a state that the first line does not allow for"
            }
            Fault::TooManyEvents => "model.aut: there are more than 64 different events",
            Fault::LabelsTooLong => "model.lab is longer than 65535 bytes",
            Fault::NamesLine { .. } => {
                "the first line should read: 0=\"init\" 1=\"deadlock\" 2=\"NAME\" and so on, with at most 64 names, all different"
            }
            Fault::StateLine { .. } => {
                "here a line should read: STATE: NUMBER NUMBER, with states rising from line to line, and numbers of the first line, rising"
            }
            Fault::TooManyPropositions => {
                "model.lab: there are more than 64 different propositions"
            }
            Fault::TablesTooShort => "there is no room for so many transitions or states",
        }
    }

    // The file and the byte at which the line at fault starts, where a line is at fault.
    pub fn place(&self) -> Option<(File, usize)>
        ensures { result ≡ (refusal self.now).place }
    {
        match self {
            Fault::HeaderLine { start }
            | Fault::TransitionLine { start }
            | Fault::TransitionLabel { start }
            | Fault::TransitionStates { start } => Some((File::Transitions, *start)),
            Fault::NamesLine { start } | Fault::StateLine { start } => Some((File::Labels, *start)),
            _ => None,
        }
    }
}
