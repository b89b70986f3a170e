// Passes over the lines of labels.
ghost use Rattle.std.specs.Prelude.{◌≡◌, ◌&&◌, length, is_some, nat_le, nat_lt};
ghost use Rattle.files.specs.Lines.{row_of};
ghost use Rattle.transition_file.specs.TransitionPart.{body};
ghost use Rattle.label_file.specs.LabelPart.{lawful_state, mislabelled};

use contents::marks::{Marked, read_marks};
use files::lines::Line;
use transition_file::first::body_lines;

// Whether the state is one of so many, and at least `least`, and the numbers make a set.
fn is_lawful(marked: &Marked, states: u16, least: u16) -> bool
    ensures { result ≡ ((nat_lt marked.now.state states && nat_le least marked.now.state) && is_some marked.now.set) }
{
    marked.state < states && least <= marked.state && marked.set.is_some()
}

// The state of a line that is lawful: one of the states, at least `least`, with numbers that rise and are listed.
fn lawful_state(line: &Line<'_>, states: u16, least: u16, masks: &[u64]) -> Option<u16>
    ensures { result ≡ lawful_state states (length masks.now) least (row_of line.now) }
{
    if !line.ended {
        return None;
    }
    let marked = read_marks(line.text, masks).ok()?;
    is_lawful(&marked, states, least).then_some(marked.state)
}

// Where the first line at fault starts.
pub(crate) fn mislabelled_line(file: &[u8], states: u16, masks: &[u64]) -> Option<usize>
    ensures { result ≡ mislabelled states (length masks.now) 0 (body file.now) }
{
    let mut least = 0;
    for line in body_lines(file) {
        let Some(state) = lawful_state(&line, states, least, masks) else {
            return Some(line.start);
        };
        least = state + 1;
    }
    None
}
