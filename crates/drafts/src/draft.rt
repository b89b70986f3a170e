// A formula while it is read.
ghost use Rattle.std.specs.Prelude.{◌≡◌, ◌≤◌, true, length};
ghost use Rattle.lists.specs.Items.{items};
ghost use Rattle.logic.specs.Limits.{max_nodes};

mod methods;

use crate::entries::EntryDraft;
use lists::FixedList;
use logic::limits::MAX_NODES;
use logic::nodes::Node;

// The nodes so far, of which a variable has the depth of its binder. Each flag answers a question of its own, and which one comes first is
// only known at the end.
#[derive(Clone, Copy, Debug, PartialEq, Eq)]
pub struct Draft {
    pub nodes: FixedList<Node, MAX_NODES>,
    pub entries: EntryDraft,
    // There were more nodes than there may be.
    pub too_long: bool,
    // There was a binder inside as many as there may be.
    pub too_deep: bool,
    // A name of a state was not known.
    pub unknown: bool,
    // An odd number of `not` stood between a variable and its binder.
    pub odd: bool,
    ghost within: { length (items nodes) ≤ max_nodes },
    ghost full: { too_long ≡ true → length (items nodes) ≡ max_nodes },
}
