// The names in the label of a transition.
ghost use Rattle.std.specs.Prelude.{◌≤◌, length};
ghost use Rattle.lists.specs.Items.{items};
ghost use Rattle.contents.specs.Labels.{label_limit};

use lists::FixedList;
use text::names::Name;

pub mod reading;

// The most names in a label.
pub const LABEL_LIMIT: usize = 8;

// The names of a label, in order; none for the label `i`.
#[derive(Clone, Copy, Debug, PartialEq, Eq)]
pub struct Label {
    names: FixedList<Name, LABEL_LIMIT>,
    ghost within: { length (items names) ≤ label_limit },
}
