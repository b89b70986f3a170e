// How entries join a draft.
ghost use Rattle.std.specs.Prelude.{◌≡◌, length};
ghost use Rattle.std.specs.List.{slice_get};
ghost use Rattle.text.specs.Held.{held};
ghost use Rattle.drafts.specs.Entries.{no_entries, add_entry, add_event, drop_last, settle_guard, is_true_at};
ghost use Rattle.drafts.specs.EntriesHeld.{entries_read};

use super::EntryDraft;
use lists::FixedList;
use logic::events::EventFormula;
use logic::limits::MAX_ENTRIES;
use logic::nodes::Guard;
use text::names::Name;
use text::numbering::Names;

impl EntryDraft {
    // No entries yet.
    pub fn new() -> Self
        ensures { entries_read result ≡ no_entries }
    {
        EntryDraft {
            list: FixedList::new(),
            written: 0,
            unknown: false,
        }
    }

    // One entry more, and its number; where too many were written, it is only counted.
    pub fn push(&mut self, entry: EventFormula) -> u8
        ensures number { result ≡ length (entries_read self.old).list }
        ensures added { entries_read self.new ≡ add_entry entry (entries_read self.old) }
    {
        let number = u8::try_from(self.list.len()).unwrap();
        if self.written < MAX_ENTRIES {
            self.list.push(entry).unwrap();
            self.written += 1;
        } else {
            self.written = MAX_ENTRIES + 1;
        }
        number
    }

    // The entry of an event by its name; one that is not known is noted.
    pub fn push_event(&mut self, names: &Names, name: &Name) -> u8
        ensures number { result ≡ length (entries_read self.old).list }
        ensures added { entries_read self.new ≡ add_event (held names.now) name.now (entries_read self.old) }
    {
        match names.number_of(name) {
            Some(event) => self.push(EventFormula::Event(u8::try_from(event).unwrap())),
            None => {
                self.unknown = true;
                self.push(EventFormula::False)
            }
        }
    }

    // The entry with the number.
    fn get(&self, number: u8) -> Option<EventFormula>
        ensures { result ≡ slice_get (entries_read self.now).list number }
    {
        self.list.as_slice().get(usize::from(number)).copied()
    }

    // Whether the entry with the number is `true`.
    fn is_true(&self, number: u8) -> bool
        ensures { result ≡ is_true_at (entries_read self.now).list number }
    {
        matches!(self.get(number), Some(EventFormula::True))
    }

    // Lets the last entry go.
    fn drop_last(&mut self)
        ensures { entries_read self.new ≡ drop_last (entries_read self.old) }
    {
        let _ = self.list.pop();
    }

    // The guard that the event formula with this number is: one that is just `true` is as good as none, and its entry goes.
    pub fn settle_guard(&mut self, number: u8) -> Guard
        ensures guard { result ≡ (settle_guard number (entries_read self.old)).0 }
        ensures left { entries_read self.new ≡ (settle_guard number (entries_read self.old)).1 }
    {
        if self.is_true(number) {
            self.drop_last();
            None
        } else {
            Some(number)
        }
    }
}
