// Event formula entries, one after the other.
ghost use Rattle.std.specs.Prelude.{◌≡◌, suc, ◌≤◌, length};
ghost use Rattle.lists.specs.Items.{items};
ghost use Rattle.logic.specs.Limits.{max_entries};

mod methods;

use lists::FixedList;
use logic::events::EventFormula;
use logic::limits::MAX_ENTRIES;

// The entries so far. `written` counts all that were written, up to one more than there may be: the
// count alone says that there were too many, which a flag would only say again.
#[derive(Clone, Copy, Debug, PartialEq, Eq)]
pub struct EntryDraft {
    pub list: FixedList<EventFormula, MAX_ENTRIES>,
    pub written: usize,
    // A name of an event was not known.
    pub unknown: bool,
    ghost stored: { length (items list) ≤ written },
    ghost within: { length (items list) ≤ max_entries },
    ghost counted: { written ≤ suc max_entries },
}
