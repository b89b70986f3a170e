// The report on a table.
use loading::shape::Shape;
use loading::vocabulary::Vocabulary;
use std::alloc::{AllocError, Global};
use std::fmt::Write;
use systems::sets::has;
use systems::system::System;
use systems::transition::Transition;
use tables::table::Table;
use text::numbering::Names;

// Adds names by number, a line each.
fn push_names(out: &mut String, title: &str, names: &Names) -> Result<(), AllocError> {
    writeln!(out, "{title}")?;
    for (number, name) in names.names().iter().enumerate() {
        writeln!(out, "  {number} {name}")?;
    }
    Ok(())
}

// Adds the names whose numbers pass, in order: `front` before the first, and `gap` before each other one.
fn push_members<F: Fn(u8) -> bool>(
    out: &mut String,
    names: &Names,
    front: &str,
    gap: &str,
    is_member: F,
) -> Result<(), AllocError>
    requires { (test : F) (number : _) → F.pre test number }
{
    let numbered = (0..=u8::MAX).zip(names.names());
    let members = numbered.filter(|(number, _)| is_member(*number));
    for (place, (_, name)) in members.enumerate() {
        let before = if place == 0 { front } else { gap };
        write!(out, "{before}{name}")?;
    }
    Ok(())
}

// Adds the propositions that hold in a state.
fn push_propositions(
    out: &mut String,
    table: &Table,
    q: u16,
    names: &Names,
) -> Result<(), AllocError> {
    push_members(out, names, " ", " ", |number| table.holds(q, number))?;
    writeln!(out)
}

// Adds the events of a set, by name and as in a file: `i` for none.
fn push_events(out: &mut String, events: u64, names: &Names) -> Result<(), AllocError> {
    if events == 0 {
        return write!(out, "i");
    }
    push_members(out, names, "", ";", |number| has(events, number))
}

// Adds a state with its propositions and its moves; a table is asked for a move by its number.
fn push_state(
    out: &mut String,
    table: &Table,
    q: u16,
    vocabulary: &Vocabulary,
) -> Result<(), AllocError> {
    write!(out, "state {q}:")?;
    push_propositions(out, table, q, vocabulary.propositions())?;
    for i in 0..table.move_count(q) {
        let target = table.target(q, i);
        write!(out, "  ")?;
        push_events(out, table.events(q, i), vocabulary.events())?;
        writeln!(out, " -> {target}")?;
    }
    Ok(())
}

// How many moves the table shows. A plain `sum` would have to be proved to fit, and no contract here bounds it.
fn move_total(table: &Table) -> usize {
    (0..table.states())
        .map(|q| table.move_count(q))
        .fold(0usize, |total, moves| total.saturating_add(moves))
}

// States, moves, events and propositions by number and name, and each state by its number.
pub(crate) fn report<'x>(
    heap: Global,
    shape: Shape,
    records: &'x [Transition],
    sets: &'x [u64],
    vocabulary: &Vocabulary,
) -> Result<String, AllocError> {
    let table = Table::new(shape, records, sets);
    let mut out = String::new(heap);
    let states = table.states();
    let initial = table.initial();
    let moves = move_total(&table);
    writeln!(out, "states {states}, initial {initial}")?;
    writeln!(out, "moves {moves}")?;
    push_names(&mut out, "events", vocabulary.events())?;
    push_names(&mut out, "propositions", vocabulary.propositions())?;
    for q in 0..states {
        push_state(&mut out, &table, q, vocabulary)?;
    }
    Ok(out)
}
