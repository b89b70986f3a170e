// The value of a formula.
ghost use Rattle.std.specs.Prelude.{◌≡◌, ◌≤◌, T, length};
ghost use Rattle.logic.specs.Limits.{max_nodes, max_entries};
ghost use Rattle.trees.specs.Trees.{size, entries_size};
ghost use Rattle.trees.specs.Numbering.{nodes_of, entries_of};
ghost use Rattle.trees.specs.Lawful.{lawful};
ghost use Rattle.lists.specs.Items.{items};
ghost use Rattle.formulas.specs.Stored.{stored_tree};

use lists::FixedList;
use logic::events::EventFormula;
use logic::limits::{MAX_ENTRIES, MAX_NODES};
use logic::nodes::Node;

mod facts;

pub use facts::{formulas_lie_well, same_nodes_same_formula};

// The nodes and the entries of a lawful tree. Only the reader of formula text makes one.
#[derive(Clone, Copy, Debug, PartialEq, Eq)]
pub struct Formula {
    nodes: FixedList<Node, MAX_NODES>,
    entries: FixedList<EventFormula, MAX_ENTRIES>,
    ghost within: { length (items nodes) ≤ max_nodes },
    ghost used_within: { length (items entries) ≤ max_entries },
    ghost counted: { length (items nodes) ≡ size (stored_tree (items nodes) (items entries)) },
    ghost listed: { length (items entries) ≡ entries_size (stored_tree (items nodes) (items entries)) },
    ghost nodes_are: { items nodes ≡ nodes_of (stored_tree (items nodes) (items entries)) },
    ghost entries_are: { items entries ≡ entries_of (stored_tree (items nodes) (items entries)) },
    ghost lawful_is: { T (lawful (stored_tree (items nodes) (items entries))) },
}
