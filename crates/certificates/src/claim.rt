// A claim of a certificate.
use logic::limits::MAX_DEPTH;

// The ranks of a claim: one for each depth.
pub const RANKS: usize = MAX_DEPTH + 1;

// What a certificate says of one node in one state: that it holds there (the claim's side is yes) or that it fails there (no), and
// how early that comes about.
#[derive(Clone, Copy, Debug, PartialEq, Eq)]
pub struct Claim {
    pub holds: bool,
    pub ranks: [u16; RANKS],
}
