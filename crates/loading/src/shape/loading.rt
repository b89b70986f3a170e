// The load: all questions first, then all writes.
ghost use Rattle.std.specs.Prelude.{◌≡◌};
ghost use Rattle.loading.specs.Loads.{Loads, tables_fit};

use super::Shape;
use crate::vocabulary::Vocabulary;
use files::fault::Fault;
use files::pair::Files;
use label_file::reading::read_labels;
use label_file::writing::{masks_of, write_labels};
use layouts::transitions::Header;
use systems::transition::Transition;
use transition_file::reading::read_transitions;
use transition_file::writing::write_transitions;

// Whether so many records and sets have places for the transitions and for the states.
fn tables_fit(header: &Header, records: usize, sets: usize) -> bool
    ensures { result ≡ tables_fit header.now records sets }
{
    usize::from(header.transitions) <= records && usize::from(header.states) <= sets
}

// Loads a transition file and a label file. A refusal changes nothing. Else the vocabulary has the new names behind the old ones,
// the first records and sets are those of the files, and the places behind them stay.
pub fn load(
    files: Files<'_>,
    vocabulary: &mut Vocabulary,
    records: &mut [Transition],
    sets: &mut [u64],
) -> Result<Shape, Fault>
    ensures { Loads files.entry.transitions.now files.entry.labels.now vocabulary.old vocabulary.new records.old records.new sets.old sets.new result }
{
    let read = read_transitions(files.transitions, &vocabulary.events)?;
    let header = read.header;
    let listed = read_labels(files.labels, header.states, &vocabulary.propositions)?;
    if !tables_fit(&header, records.len(), sets.len()) {
        return Err(Fault::TablesTooShort);
    }
    write_transitions(files.transitions, &read.events, records);
    let masks = masks_of(&listed.names, &listed.propositions);
    let states = usize::from(header.states);
    write_labels(files.labels, states, &masks[..listed.names.len()], sets);
    *vocabulary = Vocabulary::of(read.events, listed.propositions);
    Ok(Shape::of(&header))
}
