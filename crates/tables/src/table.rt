ghost use Rattle.std.specs.Prelude.{◌≡◌, length, slice_index_or};
ghost use Rattle.std.specs.List.{slice_get};
ghost use Rattle.systems.specs.Limits.{max_states};
ghost use Rattle.systems.specs.Meaning.{move_count, events_at, target_at};
ghost use Rattle.systems.specs.Tabled.{counts, tabled, tabled_propositions};
ghost use Rattle.systems.specs.TabledLaw.{tabled_lawful};
ghost use Rattle.tables.specs.Spans.{nowhere, Spanned};

use crate::span::Span;
use crate::spanned::spans_of;
use loading::shape::Shape;
use systems::limits::MAX_STATES;
use systems::sets::has;
use systems::system::System;
use systems::transition::Transition;

// A table over records and proposition sets that its user lends it. It takes them as they are: what the slices lack is not there,
// what they hold past the shape's numbers is not read, and a record that does not join two states of the shape does not count.
#[derive(Clone, Copy, Debug, PartialEq, Eq)]
pub struct Table<'a> {
    shape: Shape,
    records: &'a [Transition],
    sets: &'a [u64],
    // One for each number that a state can have, so there is no count beside them; they stand in place since there is no heap.
    spans: [Span; MAX_STATES],
    ghost whole: { length spans ≡ max_states },
    ghost spanned: { Spanned shape.states shape.moves records.now spans },
}

impl<'a> Table<'a> {
    ghost use Rattle.tables.specs.Shown.{shown_records, transitions_of, meaning_of};

    // Never refused. One pass over the records finds where those of each state lie.
    pub fn new(shape: Shape, records: &'a [Transition], sets: &'a [u64]) -> Self
        ensures { meaning_of result ≡ tabled shape.states shape.initial shape.moves records.now sets.now }
    {
        Table {
            shape,
            records,
            sets,
            spans: spans_of(shape, records),
        }
    }

    // Whether the record counts at the state `q`.
    fn counts(&self, r: Transition, q: u16) -> bool
        ensures { result ≡ counts self.now.shape.states q r }
    {
        let states = self.shape.states();
        r.source == q && r.source < states && r.target < states
    }

    // Where the records of the state `q` lie, and how many of them are moves.
    fn span(&self, q: u16) -> Span
        ensures kept { result ≡ slice_index_or self.now.spans q nowhere }
        ensures count { result.count ≡ move_count (transitions_of self.now) q }
    {
        self.spans.get(usize::from(q)).copied().unwrap_or_default()
    }

    // The record of the move `i` of the state `q`, looked for along the span of the state.
    fn find(&self, q: u16, i: usize) -> Option<Transition>
        ensures { result ≡ slice_get (shown_records self.now q) i }
    {
        let span = self.span(q);
        self.records[span.begin..span.end]
            .iter()
            .filter(|r| self.counts(**r, q))
            .nth(i)
            .copied()
    }

    // The record of the move `i` of the state `q`: where the records of the state lie together it is read at its place, and
    // past their number none is looked for.
    #[tactic(auto, using(crate::proofs::Finding::item_copied, crate::proofs::Finding::dense_shown))]
    fn record_at(&self, q: u16, i: usize) -> Option<Transition>
        ensures { result ≡ slice_get (shown_records self.now q) i }
    {
        let span = self.span(q);
        if i >= span.count {
            None
        } else if span.end - span.begin == span.count {
            self.records[span.begin..span.end].get(i).copied()
        } else {
            self.find(q, i)
        }
    }

    // The move `i` of the state `q`, and one without events to the initial state where there is no such move.
    fn move_at(&self, q: u16, i: usize) -> Transition
        ensures events { result.events ≡ events_at (transitions_of self.now) q i }
        ensures target { result.target ≡ target_at (transitions_of self.now) q i }
    {
        self.record_at(q, i).unwrap_or(Transition {
            target: self.shape.initial(),
            ..Transition::default()
        })
    }

    // The set of the propositions of the state `q`.
    fn set(&self, q: u16) -> u64
        ensures { result ≡ tabled_propositions self.now.shape.states self.now.sets.now q }
    {
        if q < self.shape.states() {
            self.sets.get(usize::from(q)).copied().unwrap_or(0)
        } else {
            0
        }
    }
}

impl<'a> System for Table<'a> {
    ghost use Rattle.tables.specs.Shown.{meaning_of};

    ghost meaning = { meaning_of };

    ghost lawful = { λ s. tabled_lawful s.shape.states s.shape.initial s.shape.moves s.records.now s.sets.now s.shape.starts s.shape.few };

    fn states(&self) -> u16 {
        self.shape.states()
    }

    fn initial(&self) -> u16 {
        self.shape.initial()
    }

    fn move_count(&self, q: u16) -> usize {
        self.span(q).count
    }

    fn events(&self, q: u16, i: usize) -> u64 {
        self.move_at(q, i).events
    }

    fn target(&self, q: u16, i: usize) -> u16 {
        self.move_at(q, i).target
    }

    fn holds(&self, q: u16, p: u8) -> bool {
        has(self.set(q), p)
    }
}
