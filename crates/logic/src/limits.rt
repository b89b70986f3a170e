// The most nodes of a formula.
pub const MAX_NODES: usize = 64;

// The most event formula entries of a formula.
pub const MAX_ENTRIES: usize = 64;

// The most binders around a node.
pub const MAX_DEPTH: usize = 3;
