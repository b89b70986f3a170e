// Formulas as values: none is unbound, too deep, too long or non-monotone.
#![tactic(auto)]

pub mod formula;
