// All that can be asked of a table, printed.
use loading::vocabulary::Vocabulary;
use std::alloc::{AllocError, Global};
use std::fmt::Write;
use std::io;
use systems::sets::has;
use systems::system::System;
use tables::table::Table;
use text::numbering::Names;

// The names in the order of their numbers, each behind a space.
pub fn names_text(heap: Global, names: &Names) -> Result<String, AllocError> {
    let mut text = String::new(heap);
    for name in names.names() {
        write!(text, " {name}")?;
    }
    Ok(text)
}

// Adds a number to the text, and its name where it has one.
fn add_member(text: &mut String, number: u8, names: &Names) -> Result<(), AllocError> {
    let gap = if text.is_empty() { "" } else { ", " };
    match names.get(usize::from(number)) {
        Some(name) => write!(text, "{gap}{number} {name}"),
        None => write!(text, "{gap}{number}"),
    }
}

// The numbers that pass, in order, each with its name where it has one.
fn members_text<F: Fn(u8) -> bool>(
    heap: Global,
    names: &Names,
    is_member: F,
) -> Result<String, AllocError>
    requires { (test : F) (number : _) → F.pre test number }
{
    let mut text = String::new(heap);
    for number in (0..=255u8).filter(|number| is_member(*number)) {
        add_member(&mut text, number, names)?;
    }
    Ok(text)
}

// The members of a set.
pub fn set_text(heap: Global, set: u64, names: &Names) -> Result<String, AllocError> {
    members_text(heap, names, |number| has(set, number))
}

// The propositions of the state.
fn held_text(heap: Global, table: &Table<'_>, q: u16, names: &Names) -> Result<String, AllocError> {
    members_text(heap, names, |number| table.holds(q, number))
}

// The events and the target of the move `i` of the state `q`.
pub fn print_move(
    rt: &HostRuntime,
    table: &Table<'_>,
    vocabulary: &Vocabulary,
    q: u16,
    i: usize,
) -> io::Result<()> {
    let events = set_text(rt.alloc(), table.events(q, i), vocabulary.events())?;
    let target = table.target(q, i);
    println!(rt; "  [{events}] to {target}")
}

// The propositions and the moves of the state `q`; a table is asked for a move by its number.
pub fn print_state(
    rt: &HostRuntime,
    table: &Table<'_>,
    vocabulary: &Vocabulary,
    q: u16,
) -> io::Result<()> {
    let held = held_text(rt.alloc(), table, q, vocabulary.propositions())?;
    println!(rt; "state {q} has [{held}]")?;
    for i in 0..table.move_count(q) {
        print_move(rt, table, vocabulary, q, i)?;
    }
    Ok(())
}

// The number of states, the initial one, and each state by its number.
pub fn print_facts(rt: &HostRuntime, table: &Table<'_>, vocabulary: &Vocabulary) -> io::Result<()> {
    let states = table.states();
    let initial = table.initial();
    println!(rt; "{states} states, initial {initial}")?;
    for q in 0..states {
        print_state(rt, table, vocabulary, q)?;
    }
    Ok(())
}
