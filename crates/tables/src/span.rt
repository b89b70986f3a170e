// Where the records of a state lie: from `begin` up to but not at `end`, and how many of those between are its own. The default is
// the span of a state that has no records.
#[derive(Clone, Copy, Debug, Default, PartialEq, Eq)]
pub struct Span {
    pub begin: usize,
    pub end: usize,
    pub count: usize,
}
