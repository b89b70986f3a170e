// The proposition sets that the label file fills.
ghost use Rattle.std.specs.Prelude.{◌≡◌, ◌-◌, ◌<◌, ◌++◌, length, replicate, bit_or, slice_index, slice_set};
ghost use Rattle.layouts.specs.Layouts.{marks_of};
ghost use Rattle.text.specs.Held.{held};
ghost use Rattle.text.specs.Numbering.{names_limit};
ghost use Rattle.transition_file.specs.TransitionPart.{body};
ghost use Rattle.label_file.specs.LabelPart.{masks, add_marks, labels_at};
ghost use Rattle.label_file.specs.Found.{Changed};

use contents::marks::{Marked, read_marks};
use std::array;
use text::numbering::{NAMES_LIMIT, Names};
use transition_file::first::body_lines;
use transition_file::writing::bit_of;

// What a number of the file stands for: the set of the name's number in the vocabulary; nothing where it names nothing.
fn mask_of(names: &Names, known: &Names, number: usize) -> u64
    ensures { result ≡ slice_index (masks (held known.now) (held names.now)) number }
{
    names.get(number).map_or(0, |name| bit_of(known, &name))
}

// What the numbers of the file stand for: the set of the name's number in the vocabulary, and nothing behind the names.
pub fn masks_of(names: &Names, known: &Names) -> [u64; NAMES_LIMIT]
    ensures { result ≡ masks (held known.now) (held names.now) ++ replicate (names_limit - length (held names.now)) 0 }
{
    array::from_fn(|number| mask_of(names, known, number))
}

// Empties the sets of the first states.
fn clear(states: usize, sets: &mut [u64])
    ensures { Changed (λ _ _. 0) states sets.old sets.new }
{
    let states = states.min(sets.len());
    sets[..states].fill(0);
}

// Adds to the set at the place.
fn add_set(sets: &mut [u64], place: usize, more: u64)
    requires { place < length sets.old }
    ensures { sets.new ≡ slice_set sets.old place (bit_or (slice_index sets.old place) more) }
{
    // By index: what is written behind `get_mut` is not known of the slice afterwards.
    sets[place] |= more;
}

// Adds what a line says to the set of its state.
fn mark_line(line: &[u8], states: usize, masks: &[u64], sets: &mut [u64])
    ensures { Changed (λ q set. add_marks masks.now q set (marks_of line.now)) states sets.old sets.new }
{
    let Ok(
        Marked {
            state,
            set: Some(set),
        },
    ) = read_marks(line, masks)
    else {
        return;
    };
    let place = usize::from(state);
    if place < states && place < sets.len() {
        add_set(sets, place, set);
    }
}

// Writes the sets of the first states; the other places stay.
pub fn write_labels(file: &[u8], states: usize, masks: &[u64], sets: &mut [u64])
    ensures { Changed (λ q _. labels_at masks.now (body file.now) q) states sets.old sets.new }
{
    clear(states, sets);
    for line in body_lines(file) {
        mark_line(line.text, states, masks, sets);
    }
}
