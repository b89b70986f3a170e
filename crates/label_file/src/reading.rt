// The questions of the label file, in order.
ghost use Rattle.text.specs.Held.{held};
ghost use Rattle.label_file.specs.Found.{ReadAs};

use crate::first::first_names;
use crate::scans::mislabelled_line;
use files::fault::Fault;
use text::numbering::{NAMES_LIMIT, Names};
use transition_file::reading::is_short;

// The names that the file lists, and the names of propositions with those of the file behind them.
#[derive(Clone, Copy, Debug, PartialEq, Eq)]
pub struct LabelsRead {
    pub names: Names,
    pub propositions: Names,
}

// Puts questions 8 to 11, to a file of labels for so many states.
pub fn read_labels(file: &[u8], states: u16, known: &Names) -> Result<LabelsRead, Fault>
    ensures { ReadAs file.now states (held known.now) result }
{
    if !is_short(file) {
        return Err(Fault::LabelsTooLong);
    }
    let names = first_names(file).ok_or(Fault::NamesLine { start: 0 })?;
    // What the numbers stand for does not matter yet, only how many there are; a function in place of the array would take a clause of its own.
    let blank = [0; NAMES_LIMIT];
    if let Some(start) = mislabelled_line(file, states, &blank[..names.len()]) {
        return Err(Fault::StateLine { start });
    }
    let mut propositions = *known;
    propositions
        .join_all(names.names())
        .map_err(|_| Fault::TooManyPropositions)?;
    Ok(LabelsRead {
        names,
        propositions,
    })
}
