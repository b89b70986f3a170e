ghost use Rattle.std.specs.Prelude.{◌≡◌};
ghost use Rattle.abstraction.specs.Abstracted.{abstracted};
ghost use Rattle.abstraction.specs.AbstractedLaw.{abstracted_lawful, held_small};
ghost use Rattle.abstraction.specs.Held.{held};

use crate::sheet::Sheet;
use systems::system::System;

// A system as the rules of a sheet show it. It asks the system by reference and holds nothing of it.
#[derive(Clone, Copy)]
pub struct Abstraction<'a, S: System> {
    below: &'a S,
    sheet: Sheet,
}

impl<'a, S: System> Abstraction<'a, S> {
    // Shows a system by the rules of a sheet.
    pub fn new(below: &'a S, sheet: Sheet) -> Self
        ensures { abstracted (held result.sheet) (S.System.meaning result.below.now) ≡ abstracted (held sheet) (S.System.meaning below.now) }
    {
        Abstraction { below, sheet }
    }
}

impl<'a, S: System> System for Abstraction<'a, S> {
    ghost meaning = { λ s. abstracted (held s.sheet) (S.System.meaning s.below.now) };

    ghost lawful = { λ s. abstracted_lawful (held s.sheet) (held_small s.sheet) (S.System.meaning s.below.now) (S.System.lawful s.below.now) };

    fn states(&self) -> u16 {
        self.below.states()
    }

    fn initial(&self) -> u16 {
        self.below.initial()
    }

    #[tactic(auto, using(crate::proofs::Shown::shown_count))]
    fn move_count(&self, q: u16) -> usize {
        self.below.move_count(q)
    }

    #[tactic(auto, using(crate::proofs::Shown::shown_events))]
    fn events(&self, q: u16, i: usize) -> u64 {
        self.sheet.show(self.below.events(q, i))
    }

    #[tactic(auto, using(crate::proofs::Shown::shown_target))]
    fn target(&self, q: u16, i: usize) -> u16 {
        self.below.target(q, i)
    }

    fn holds(&self, q: u16, p: u8) -> bool {
        self.below.holds(q, p)
    }
}
