// A table of names that are numbered from 0 in the order in which they joined.
ghost use Rattle.std.specs.Prelude.{◌≡◌, ◌≤◌, T, length};
ghost use Rattle.lists.specs.Items.{items};
ghost use Rattle.text.specs.Numbering.{names_limit, all_different, JoiningIsLawful, NumbersArePlaces};

use crate::names::Name;
use lists::FixedList;

mod methods;

// The most names that have numbers.
pub const NAMES_LIMIT: usize = 64;

// Names in the order of their numbers, no two of them the same. The facts are ghost fields and no model: behind a model, proofs about
// tables that are only handed on (the events that join, one label after another) would have no way to them.
#[derive(Clone, Copy, Debug, PartialEq, Eq)]
pub struct Names {
    list: FixedList<Name, NAMES_LIMIT>,
    ghost within: { length (items list) ≤ names_limit },
    ghost apart: { T (all_different (items list)) },
}

// Old names keep their numbers when others join.
pub fn joining_is_lawful()
    ensures { JoiningIsLawful }
{}

// The number of a name is the place where it stands.
pub fn numbers_are_places()
    ensures { NumbersArePlaces }
{}
