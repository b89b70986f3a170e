ghost use Rattle.std.specs.Prelude.{◌≡◌, ◌<◌, [], ◌∷◌, ◌++◌, Some, None, OnOk, OnErr, IfErr};
ghost use Rattle.abstraction.specs.Abstracted.{shown_by};
ghost use Rattle.abstraction.specs.Held.{held};
ghost use Rattle.abstraction.specs.Rules.{refusal};

use crate::refusal::RuleRefusal;
use crate::rule::Rule;
use crate::sheet::{MAX_RULES, Sheet};
use lists::FixedList;
use systems::limits::MAX_EVENTS;

impl Sheet {
    // A sheet without rules.
    pub fn new() -> Sheet
        ensures { held result ≡ [] }
    {
        Sheet {
            rules: FixedList::new(),
        }
    }

    // Whether a rule is added, asked in this order: is a row free, and are both events below 64?
    fn check(&self, seen: u8, shown: u8) -> Result<(), RuleRefusal>
        ensures ok { OnOk result (refusal (held self.now) seen shown ≡ None) }
        ensures err { IfErr result (λ e. refusal (held self.now) seen shown ≡ Some e) }
    {
        if self.rules.len() >= MAX_RULES {
            return Err(RuleRefusal::SheetFull);
        }
        if seen >= MAX_EVENTS || shown >= MAX_EVENTS {
            return Err(RuleRefusal::NoSuchEvent);
        }
        Ok(())
    }

    // Adds a rule behind the others. A refusal leaves the sheet as it was.
    pub fn add(&mut self, seen: u8, shown: u8) -> Result<(), RuleRefusal>
        ensures ok { OnOk result (refusal (held self.old) seen shown ≡ None) }
        ensures added { OnOk result (held self.new ≡ held self.old ++ record { seen = seen; shown = shown } ∷ []) }
        ensures err { IfErr result (λ e. refusal (held self.old) seen shown ≡ Some e) }
        ensures kept { OnErr result (self.new ≡ self.old) }
    {
        self.check(seen, shown)?;
        self.rules.push(Rule { seen, shown }).unwrap();
        Ok(())
    }

    // The shown event of each rule whose seen event is among the events.
    pub fn show(&self, events: u64) -> u64
        ensures { result ≡ shown_by (held self.now) events }
    {
        self.rules
            .as_slice()
            .iter()
            .fold(0, |out, r| r.add_shown(events, out))
    }
}
