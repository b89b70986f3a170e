// Formulas as trees, and the numbers of their nodes.
#![tactic(auto)]

ghost use Rattle.trees.specs.Lawful.{LawfulLie};
ghost use Rattle.trees.specs.Reading.{ReadsBack, NodesTell};

// The nodes of a lawful formula are laid out as they should be.
pub fn lawful_formulas_lie_well()
    ensures { LawfulLie }
{}

// The tree of a formula can be read back from its nodes and entries.
pub fn formulas_read_back()
    ensures { ReadsBack }
{}

// Formulas that have the same nodes are one, wherever the entries of their guards stand.
pub fn nodes_tell_formulas()
    ensures { NodesTell }
{}
