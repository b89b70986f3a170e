// The most states a system has.
pub const MAX_STATES: usize = 256;

// The most moves that leave one state.
pub const MAX_MOVES: usize = 1024;

// Events are numbered below this.
pub const MAX_EVENTS: u8 = 64;

// Propositions are numbered below this.
pub const MAX_PROPOSITIONS: u8 = 64;
