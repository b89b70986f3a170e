// Reads a label.
ghost use Rattle.std.specs.Prelude.{◌≡◌};
ghost use Rattle.std.specs.Option.{option_map};
ghost use Rattle.contents.specs.Labels.{label_names};
ghost use Rattle.contents.specs.Labelled.{labelled};

use super::{LABEL_LIMIT, Label};
use lists::FixedList;
use text::names::Name;
use text::words::WORD_LIMIT;

// The most bytes of a label: as many names as it may have, each as long as it may be, and what joins them.
const MOST_BYTES: usize = LABEL_LIMIT * (WORD_LIMIT + 1) - 1;

impl Label {
    // The names in order.
    pub fn names(&self) -> &[Name]
        ensures { result.now ≡ labelled self.now }
    {
        self.names.as_slice()
    }
}

// The names that the label lists: none in `i`, else 1 to 8 that `;` joins. Nothing where the label is not lawful.
pub fn read_label(label: &[u8]) -> Option<Label>
    ensures { option_map labelled result ≡ label_names label.now }
{
    let mut names = FixedList::new();
    if label == b"i".as_slice() {
        return Some(Label { names });
    }
    // What is longer is not lawful, whatever its pieces are, and is not read.
    if label.len() > MOST_BYTES {
        return None;
    }
    for piece in label.split(|b| *b == b';') {
        names.push(Name::new(piece)?).ok()?;
    }
    Some(Label { names })
}
