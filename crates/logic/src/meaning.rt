// What the nodes of a formula mean.
ghost use Rattle.logic.specs.Holding.{ByLines};

// The meaning of a node is its line of the table, over the meanings of its parts.
pub fn nodes_mean_their_lines()
    ensures { ByLines }
{}
