// Evidence that the table of unfoldings is the right one.
ghost use Rattle.logic.specs.Derived.{StandardOperators, Duality};

// Over every system, the set of each operator is the set of its standard equation.
pub fn operators_are_standard()
    ensures { StandardOperators }
{}

// The greatest set of an operator is what is left out by the least set of its dual.
pub fn greatest_is_dual_to_least()
    ensures { Duality }
{}
