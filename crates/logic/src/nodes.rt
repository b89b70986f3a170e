// The nodes of a formula.
ghost use Rattle.std.specs.Prelude.{◌≡◌, true};

use lists::Blank;

// Which moves are meant: those whose events satisfy an entry of the event formulas, or all, where none is given.
pub type Guard = Option<u8>;

// The kind of a node; parts are nodes by number, since no formula takes heap memory, and a variable names its binder.
#[derive(Clone, Copy, Debug, PartialEq, Eq)]
pub enum Kind {
    True,
    False,
    // No move leaves the state.
    Final,
    Proposition(u8),
    Not(u8),
    And(u8, u8),
    Or(u8, u8),
    // <χ> f, and EX {χ} f
    Diamond(Guard, u8),
    // [χ] f
    BoxAll(Guard, u8),
    // AX {χ} f
    AllNext(Guard, u8),
    // EF f
    Eventually(u8),
    // AG f
    Always(u8),
    // E[f {χ} U g]
    ExistsUntil(u8, Guard, u8),
    // A[f {χ} U g]
    AllUntil(u8, Guard, u8),
    // E[f {χ} U {ψ} g]
    ExistsUntilBy(u8, Guard, Guard, u8),
    // A[f {χ} U {ψ} g]
    AllUntilBy(u8, Guard, Guard, u8),
    Min(u8),
    Max(u8),
    Variable(u8),
}

// A node of a formula.
#[derive(Clone, Copy, Debug, PartialEq, Eq)]
pub struct Node {
    pub kind: Kind,
    // The number of binders around it.
    pub depth: u8,
    // Whether the number of `not` between it and the root is even.
    pub sign: bool,
}

// What stands in a place without a node.
impl Blank for Node {
    ghost use Rattle.logic.specs.declared.nodes.Kind.TheVariants.{False};

    ghost blank = { record { kind = False; depth = 0; sign = true } };

    fn blank() -> Node {
        Node {
            kind: Kind::False,
            depth: 0,
            sign: true,
        }
    }
}
