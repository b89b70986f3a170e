ghost use Rattle.std.specs.Prelude.{◌≡◌, ◌^◌, ◌<◌};
ghost use Rattle.systems.specs.Limits.{max_events};
ghost use Rattle.systems.specs.Meaning.{member};
ghost use Rattle.abstraction.specs.Abstracted.{with_shown};
ghost use Rattle.abstraction.specs.Rules.{blank};

use lists::Blank;

// A rule: a move that has the event `seen` shows the event `shown`.
#[derive(Clone, Copy, Debug, Default, PartialEq, Eq)]
pub struct Rule {
    pub seen: u8,
    pub shown: u8,
}

// Stands where a sheet has no rule.
impl Blank for Rule {
    ghost blank = { blank };

    fn blank() -> Rule {
        Rule::default()
    }
}

// Whether the event, which is below 64, is in the set. Where that is not known, `systems::sets::has` asks it too, and a sheet takes half as long again.
fn has(set: u64, event: u8) -> bool
    requires { event < max_events }
    ensures { result ≡ member set event }
{
    (set >> event) % 2 == 1
}

// The set of one event, as `bit_of` makes that of a name's place.
fn only(event: u8) -> u64
    requires { event < max_events }
    ensures { result ≡ 2 ^ event }
{
    1 << event
}

impl Rule {
    // The set, with the rule's shown event if its seen event is among the events.
    pub(crate) fn add_shown(self, events: u64, set: u64) -> u64
        requires { (self.seen < max_events) × (self.shown < max_events) }
        ensures { result ≡ with_shown events set self }
    {
        if has(events, self.seen) {
            set | only(self.shown)
        } else {
            set
        }
    }
}
