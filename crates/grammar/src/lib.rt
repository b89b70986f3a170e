// Which symbols spell which formula.
#![tactic(auto)]

ghost use Rattle.grammar.specs.Telling.{ReadIsSpelled, OneFormulaEach};

// Symbols spell a formula exactly if its tree is what is read of them.
pub fn read_is_spelled()
    ensures { ReadIsSpelled }
{}

// Symbols spell one formula or none.
pub fn symbols_spell_one_formula()
    ensures { OneFormulaEach }
{}
