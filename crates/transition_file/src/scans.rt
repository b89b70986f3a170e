// Passes over the lines of transitions.
ghost use Rattle.std.specs.Prelude.{◌≡◌, length};
ghost use Rattle.std.specs.Option.{option_map};
ghost use Rattle.text.specs.Held.{held};
ghost use Rattle.transition_file.specs.TransitionPart.{misplaced, failing, on_arrow, lawful_label, joins_states, join_if_few, names_in_line, names_in_rows, body};

use crate::first::body_lines;
use crate::questions::{has_lawful_label, is_arrow, joins_states};
use contents::label::reading::read_label;
use layouts::transitions::read_transition;
use text::numbering::Names;

// Where the first line at fault starts, if there are not exactly `count` lines with a transition's layout.
pub(crate) fn misplaced_line(file: &[u8], count: u16) -> Option<usize>
    ensures { result ≡ misplaced count (length file.now) (body file.now) }
{
    let mut lines = body_lines(file);
    // The count and the lines go on together, and a chain would not tell which of them ends first.
    for _turn in 0..count {
        let Some(line) = lines.next() else {
            return Some(file.len());
        };
        if !is_arrow(&line) {
            return Some(line.start);
        }
    }
    lines.next().map(|line| line.start)
}

// Where the first line starts whose label is not lawful. Like the next one, a chain of one line: with the test as a parameter, the clause
// about what it answers would be longer than both.
pub(crate) fn unlawful_label(file: &[u8]) -> Option<usize>
    ensures { result ≡ failing (on_arrow lawful_label) (body file.now) }
{
    body_lines(file)
        .find(|line| !has_lawful_label(line))
        .map(|line| line.start)
}

// Where the first line starts that joins a state that there is not.
pub(crate) fn unknown_state(file: &[u8], states: u16) -> Option<usize>
    ensures { result ≡ failing (on_arrow (joins_states states)) (body file.now) }
{
    body_lines(file)
        .find(|line| !joins_states(line, states))
        .map(|line| line.start)
}

// The names with those in the line's label behind them; nothing if there are too many.
fn join_line(known: Names, line: &[u8]) -> Option<Names>
    ensures { option_map held result ≡ join_if_few (held known) (names_in_line line.now) }
{
    let Ok(t) = read_transition(line) else {
        return Some(known);
    };
    let Some(label) = read_label(t.label) else {
        return Some(known);
    };
    let mut names = known;
    names.join_all(label.names()).ok()?;
    Some(names)
}

// The names with those in the labels behind them; nothing if there are too many. By `try_fold` it was tried: what it returns stays open.
pub(crate) fn join_events(file: &[u8], known: Names) -> Option<Names>
    ensures { option_map held result ≡ join_if_few (held known) (names_in_rows (body file.now)) }
{
    let mut names = known;
    for line in body_lines(file) {
        names = join_line(names, line.text)?;
    }
    Some(names)
}
