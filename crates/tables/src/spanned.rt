ghost use Rattle.std.specs.Prelude.{◌≡◌, ◌-◌, ◌^◌, ◌<◌, length};
ghost use Rattle.systems.specs.Limits.{max_states};
ghost use Rattle.tables.specs.Spans.{grown, Spanned};

use crate::span::Span;
use loading::shape::Shape;
use systems::limits::{MAX_MOVES, MAX_STATES};
use systems::transition::Transition;

impl Span {
    // The span with one more record, at a place behind it; a state that has all its moves takes no more.
    fn grown(self, place: usize) -> Span
        requires { place < 2 ^ 64 - 1 }
        ensures { result ≡ grown self place }
    {
        if self.count < MAX_MOVES {
            Span {
                begin: if self.count == 0 { place } else { self.begin },
                end: place + 1,
                count: self.count + 1,
            }
        } else {
            self
        }
    }
}

// The span of each state, in one pass over the records that the shape says there are.
pub fn spans_of(shape: Shape, records: &[Transition]) -> [Span; MAX_STATES]
    ensures whole { length result ≡ max_states }
    ensures spanned { Spanned shape.states shape.moves records.now result }
{
    let mut spans = [Span::default(); MAX_STATES];
    let states = shape.states();
    for (k, r) in records.iter().take(shape.moves()).enumerate() {
        if r.source < states && r.target < states {
            let q = usize::from(r.source);
            spans[q] = spans[q].grown(k);
        }
    }
    spans
}
