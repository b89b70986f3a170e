// Loads tables, and prints what systems tell.
use files::pair::Files;
use loading::shape::{Shape, load};
use loading::vocabulary::Vocabulary;
use std::alloc::{AllocError, Global};
use std::fmt::Write;
use std::io;
use systems::limits::{MAX_MOVES, MAX_STATES};
use systems::system::System;
use systems::transition::Transition;
use tables::table::Table;

// A shape, and the records and sets that a load filled for it.
#[derive(Drop)]
pub(crate) struct Loaded {
    shape: Shape,
    records: Vec<Transition>,
    sets: Vec<u64>,
}

impl Loaded {
    // Loads two texts into a vocabulary and places of their own, as many as a file can fill; a text that is refused here is a mistake.
    pub(crate) fn new(heap: Global, transitions: &[u8], labels: &[u8]) -> io::Result<Loaded> {
        let files = Files {
            transitions,
            labels,
        };
        let mut vocabulary = Vocabulary::new();
        let mut records = vec![in heap; Transition::default(); MAX_MOVES]?;
        let mut sets = vec![in heap; 0; MAX_STATES]?;
        let shape = load(files, &mut vocabulary, &mut records, &mut sets).map_err(
            |_| io::Error::from(io::ErrorKind::InvalidData),
        )?;
        Ok(Loaded {
            shape,
            records,
            sets,
        })
    }

    // The table over them.
    pub(crate) fn table(&self) -> Table<'_> {
        Table::new(self.shape, &self.records, &self.sets)
    }
}

// The moves of a state, each as its set of events and its target; a system is asked for them by number, so the loop counts.
fn moves_text<S: System>(heap: Global, s: &S, q: u16) -> Result<String, AllocError> {
    let mut text = String::new(heap);
    for i in 0..s.move_count(q) {
        let events = s.events(q, i);
        let target = s.target(q, i);
        write!(text, " {events}>{target}")?;
    }
    Ok(text)
}

// The propositions of a state, by number.
fn propositions_text<S: System>(heap: Global, s: &S, q: u16) -> Result<String, AllocError> {
    let mut text = String::new(heap);
    for p in (0..=255u8).filter(|p| s.holds(q, *p)) {
        write!(text, " {p}")?;
    }
    Ok(text)
}

// Prints every fact of a system, and of two states that it does not have; states are numbers, so the loop counts.
pub(crate) fn tell<S: System>(rt: &HostRuntime, title: &str, s: &S) -> io::Result<()> {
    let heap = rt.alloc();
    let states = s.states();
    let initial = s.initial();
    println!(rt; "{title}: {states} states, initial {initial}")?;
    for q in 0..states.saturating_add(2) {
        let holds = propositions_text(heap, s, q)?;
        let moves = moves_text(heap, s, q)?;
        println!(rt; "  {q}:{holds} |{moves}")?;
    }
    let events = s.events(0, MAX_MOVES);
    let target = s.target(0, MAX_MOVES);
    println!(rt; "  a missing move: {events}>{target}")
}
