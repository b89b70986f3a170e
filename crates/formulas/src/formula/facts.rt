// What a formula tells, and what holds of every formula.
ghost use Rattle.std.specs.Prelude.{◌≡◌, length};
ghost use Rattle.formulas.specs.Formulas.{nodes_in, entries_in, accepted, FormulasLieWell, SameNodesSameFormula};

use super::Formula;
use logic::events::{EventFormula, accepts};
use logic::nodes::{Guard, Node};

impl Formula {
    // The nodes by number; the root is last.
    pub fn nodes(&self) -> &[Node]
        ensures { result.now ≡ nodes_in self.now }
    {
        self.nodes.as_slice()
    }

    // The event formula entries by number.
    pub fn entries(&self) -> &[EventFormula]
        ensures { result.now ≡ entries_in self.now }
    {
        self.entries.as_slice()
    }

    // Whether moves with these events are meant.
    pub fn accepts(&self, guard: Guard, events: u64) -> bool
        ensures { result ≡ accepted self.now guard events }
    {
        guard.is_none_or(|entry| accepts(self.entries(), entry, events))
    }
}

// The nodes of every formula are laid out as those of a lawful formula.
pub fn formulas_lie_well()
    ensures { FormulasLieWell }
{}

// Formulas are one exactly if they have the same nodes, number by number, with the event formulas, propositions and binders in them.
pub fn same_nodes_same_formula()
    ensures { SameNodesSameFormula }
{}
