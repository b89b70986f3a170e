// What is asked of the header, and of the line of a transition.
ghost use Rattle.std.specs.Prelude.{◌≡◌};
ghost use Rattle.files.specs.Lines.{row_of};
ghost use Rattle.transition_file.specs.TransitionPart.{numbers_fit, is_arrow, on_arrow, lawful_label, joins_states};

use contents::label::reading::read_label;
use files::lines::Line;
use layouts::transitions::{Header, read_transition};
use systems::limits::{MAX_MOVES, MAX_STATES};

// Whether the numbers of the header are in their ranges: all transitions may leave one state.
pub(crate) fn numbers_fit(h: &Header) -> bool
    ensures { result ≡ numbers_fit h.now }
{
    1 <= h.states
        && usize::from(h.states) <= MAX_STATES
        && usize::from(h.transitions) <= MAX_MOVES
        && h.initial < h.states
}

// Whether the line is ended and has a transition's layout.
pub(crate) fn is_arrow(line: &Line<'_>) -> bool
    ensures { result ≡ is_arrow (row_of line.now) }
{
    line.ended && read_transition(line.text).is_ok()
}

// Whether the label is lawful.
pub(crate) fn has_lawful_label(line: &Line<'_>) -> bool
    ensures { result ≡ on_arrow lawful_label (row_of line.now) }
{
    read_transition(line.text).is_ok_and(|t| read_label(t.label).is_some())
}

// Whether the transition joins two of so many states.
pub(crate) fn joins_states(line: &Line<'_>, states: u16) -> bool
    ensures { result ≡ on_arrow (joins_states states) (row_of line.now) }
{
    read_transition(line.text).is_ok_and(|t| t.source < states && t.target < states)
}
