// A record of a table: a move that leaves `source` with a set of events, bit e for the event e, and leads to `target`.
#[derive(Clone, Copy, Debug, Default, PartialEq, Eq)]
pub struct Transition {
    pub source: u16,
    pub events: u64,
    pub target: u16,
}
