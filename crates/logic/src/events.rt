// Event formulas: entries of an array, each numbered after its parts.
ghost use Rattle.std.specs.Prelude.{◌≡◌, ◌==◌};
ghost use Rattle.std.specs.List.{slice_get};
ghost use Rattle.logic.specs.Events.{satisfies, part_satisfies, ByParts};

use lists::Blank;
use systems::sets::has;

// An entry; parts are entries by number, since no formula takes heap memory.
#[derive(Clone, Copy, Debug, PartialEq, Eq)]
pub enum EventFormula {
    True,
    False,
    // True of the empty set alone.
    Tau,
    // True of the sets that hold the event.
    Event(u8),
    Not(u8),
    And(u8, u8),
    Or(u8, u8),
}

// What stands in a place without an entry.
impl Blank for EventFormula {
    ghost use Rattle.logic.specs.declared.events.EventFormula.TheVariants.{False};

    ghost blank = { False };

    fn blank() -> EventFormula {
        Self::False
    }
}

// Whether the set is empty.
fn is_silent(events: u64) -> bool
    ensures { result ≡ (events == 0) }
{
    events == 0
}

// The entry with the number, if there is one.
fn entry_at(entries: &[EventFormula], entry: u8) -> Option<EventFormula>
    ensures { result ≡ slice_get entries.now entry }
{
    entries.get(usize::from(entry)).copied()
}

// Whether a part of the entry is true of the set; what does not stand before the entry is true of no set.
#[cycle(accepts_part_accepts)]
fn part_accepts(entries: &[EventFormula], entry: u8, part: u8, events: u64) -> bool
    ensures { result ≡ part_satisfies entries.now entry events part }
{
    part < entry && accepts(entries, part, events)
}

// Whether the entry is true of a set of events; what is no entry is true of no set.
#[cycle(accepts_part_accepts)]
pub fn accepts(entries: &[EventFormula], entry: u8, events: u64) -> bool
    ensures { result ≡ satisfies entries.now entry events }
{
    let Some(formula) = entry_at(entries, entry) else {
        return false;
    };
    match formula {
        EventFormula::True => true,
        EventFormula::False => false,
        EventFormula::Tau => is_silent(events),
        EventFormula::Event(e) => has(events, e),
        EventFormula::Not(a) => !part_accepts(entries, entry, a, events),
        EventFormula::And(a, b) => {
            part_accepts(entries, entry, a, events) && part_accepts(entries, entry, b, events)
        }
        EventFormula::Or(a, b) => {
            part_accepts(entries, entry, a, events) || part_accepts(entries, entry, b, events)
        }
    }
}

// An entry is true of a set by its parts, down to single names, whatever the entries.
pub fn entries_go_by_parts()
    ensures { ByParts }
{}
