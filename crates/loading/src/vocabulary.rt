// The vocabulary: the numbers of events and of propositions, by their names.
ghost use Rattle.std.specs.Prelude.{◌≡◌, []};
ghost use Rattle.text.specs.Held.{held};

use text::numbering::Names;

// Events 0 to 63 and propositions 0 to 63, in the order in which loads brought their names. It grows only by a load.
#[derive(Clone, Copy, Debug, PartialEq, Eq)]
pub struct Vocabulary {
    pub(crate) events: Names,
    pub(crate) propositions: Names,
}

impl Vocabulary {
    // A vocabulary without names.
    pub fn new() -> Self
        ensures events { held result.events ≡ [] }
        ensures propositions { held result.propositions ≡ [] }
    {
        Vocabulary {
            events: Names::new(),
            propositions: Names::new(),
        }
    }

    // The vocabulary of these names.
    pub(crate) fn of(events: Names, propositions: Names) -> Self
        ensures { result ≡ record { events = events; propositions = propositions } }
    {
        Vocabulary {
            events,
            propositions,
        }
    }

    // The events, by number.
    pub fn events(&self) -> &Names
        ensures { result.now ≡ self.now.events }
    {
        &self.events
    }

    // The propositions, by number.
    pub fn propositions(&self) -> &Names
        ensures { result.now ≡ self.now.propositions }
    {
        &self.propositions
    }
}
