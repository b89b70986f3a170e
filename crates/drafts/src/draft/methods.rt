// How nodes join a draft.
ghost use Rattle.std.specs.Prelude.{◌≡◌};
ghost use Rattle.drafts.specs.Drafts.{no_nodes, add_node};
ghost use Rattle.drafts.specs.DraftsHeld.{drafted};

use super::Draft;
use crate::entries::EntryDraft;
use lists::FixedList;
use logic::limits::MAX_NODES;
use logic::nodes::Node;

impl Draft {
    // Nothing read yet.
    pub fn new() -> Self
        ensures { drafted result ≡ no_nodes }
    {
        Draft {
            nodes: FixedList::new(),
            entries: EntryDraft::new(),
            too_long: false,
            too_deep: false,
            unknown: false,
            odd: false,
        }
    }

    // The number of the next node; one more than any there may be, where there were too many.
    fn next_number(&self) -> u8
        ensures { result ≡ (drafted self.now).count }
    {
        let nodes = self.nodes.len() + usize::from(self.too_long);
        u8::try_from(nodes).unwrap()
    }

    // One node more, and its number; where there is no room for it, that is only noted.
    pub fn push(&mut self, node: Node) -> u8
        ensures number { result ≡ (drafted self.old).count }
        ensures added { drafted self.new ≡ add_node node (drafted self.old) }
    {
        let number = self.next_number();
        if self.nodes.push(node).is_err() {
            self.too_long = true;
        }
        number
    }
}
