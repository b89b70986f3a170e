// Texts at the limits, and one past each.
use crate::bench::{Bench, outcome};
use crate::facts::print_state;
use crate::texts::{
    LABELS, MODEL, both, events, every_state, largest, long_labels, long_moves, loops, marked,
    names, padded,
};
use files::pair::Files;
use loading::shape::Shape;
use std::io;
use systems::limits::{MAX_EVENTS, MAX_MOVES, MAX_STATES};
use systems::system::System;
use text::numbering::NAMES_LIMIT;

const STATES_256: &[u8] = b"des (0, 0, 256)\n";

const STATES_257: &[u8] = b"des (0, 0, 257)\n";

// Prints the sizes of the files and what is said of them.
fn show(rt: &HostRuntime, title: &str, files: Files<'_>) -> io::Result<()> {
    let said = outcome(rt.alloc(), files)?;
    let first = files.transitions.len();
    let second = files.labels.len();
    println!(rt; "{title} ({first} and {second} bytes): {said}")
}

// How many moves leave the states 0 and 1 of the table.
fn print_counts(rt: &HostRuntime, shape: Shape, bench: &Bench) -> io::Result<()> {
    let table = bench.table(shape);
    let first = table.move_count(0);
    let second = table.move_count(1);
    println!(rt; "{first} moves leave the state 0, {second} the state 1")
}

// Loads moves that leave one state.
fn load_moves(rt: &HostRuntime, transitions: &[u8]) -> io::Result<()> {
    let mut bench = Bench::new(rt.alloc(), MAX_MOVES, 1)?;
    match bench.load(both(transitions, LABELS)) {
        Ok(shape) => print_counts(rt, shape, &bench),
        Err(_) => println!(rt; "refused"),
    }
}

fn run_moves(rt: &HostRuntime) -> io::Result<()> {
    let most = loops(rt.alloc(), MAX_MOVES)?;
    show(rt, "1,024 moves", both(most.as_bytes(), LABELS))?;
    load_moves(rt, most.as_bytes())?;
    let more = loops(rt.alloc(), MAX_MOVES + 1)?;
    show(rt, "1,025 moves", both(more.as_bytes(), LABELS))
}

fn run_states(rt: &HostRuntime) -> io::Result<()> {
    let most = every_state(rt.alloc(), MAX_STATES)?;
    show(rt, "256 states", both(STATES_256, most.as_bytes()))?;
    let more = every_state(rt.alloc(), MAX_STATES + 1)?;
    show(
        rt,
        "256 states, 257 with labels",
        both(STATES_256, more.as_bytes()),
    )?;
    show(rt, "257 states", both(STATES_257, more.as_bytes()))
}

fn run_events(rt: &HostRuntime) -> io::Result<()> {
    let most = events(rt.alloc(), MAX_EVENTS, 0)?;
    show(rt, "64 events", both(most.as_bytes(), LABELS))?;
    let more = events(rt.alloc(), MAX_EVENTS + 1, 0)?;
    show(rt, "65 events", both(more.as_bytes(), LABELS))?;
    show(rt, "65 events, no labels", both(more.as_bytes(), b""))?;
    let worse = events(rt.alloc(), MAX_EVENTS + 1, 1)?;
    show(
        rt,
        "65 events, a state too high",
        both(worse.as_bytes(), LABELS),
    )
}

fn run_names(rt: &HostRuntime) -> io::Result<()> {
    let most = names(rt.alloc(), NAMES_LIMIT)?;
    show(rt, "64 names", both(MODEL, most.as_bytes()))?;
    let more = names(rt.alloc(), NAMES_LIMIT + 1)?;
    show(rt, "65 names", both(MODEL, more.as_bytes()))
}

fn run_long_moves(rt: &HostRuntime) -> io::Result<()> {
    let most = long_moves(rt.alloc(), "abcdefghijklmnopqrstuvw")?;
    show(rt, "the longest moves", both(most.as_bytes(), LABELS))?;
    let more = long_moves(rt.alloc(), "abcdefghijklmnopqrstuvwx")?;
    show(rt, "a byte more", both(more.as_bytes(), LABELS))?;
    let most = padded(rt.alloc(), "", 65_535)?;
    show(rt, "no moves", both(most.as_bytes(), LABELS))?;
    let more = padded(rt.alloc(), "", 65_536)?;
    show(rt, "a byte more", both(more.as_bytes(), LABELS))?;
    show(rt, "both too long", both(more.as_bytes(), more.as_bytes()))
}

fn run_long_labels(rt: &HostRuntime) -> io::Result<()> {
    let names = marked(rt.alloc(), "")?;
    let most = padded(rt.alloc(), names.as_str(), 65_535)?;
    show(rt, "long labels", both(MODEL, most.as_bytes()))?;
    let more = padded(rt.alloc(), names.as_str(), 65_536)?;
    show(rt, "a byte more", both(MODEL, more.as_bytes()))?;
    let most = padded(rt.alloc(), "", 65_535)?;
    show(rt, "no names", both(MODEL, most.as_bytes()))?;
    let more = padded(rt.alloc(), "", 65_536)?;
    show(rt, "a byte more", both(MODEL, more.as_bytes()))
}

// Every proposition in every state.
fn run_full(rt: &HostRuntime) -> io::Result<()> {
    let labels = long_labels(rt.alloc())?;
    show(
        rt,
        "every proposition in every state",
        both(STATES_256, labels.as_bytes()),
    )?;
    let mut bench = Bench::new(rt.alloc(), 0, MAX_STATES)?;
    let _ = bench.load(both(STATES_256, labels.as_bytes()));
    let full = bench.sets.iter().filter(|set| **set == u64::MAX).count();
    println!(rt; "{full} full sets")
}

// A few of the states.
fn print_some(rt: &HostRuntime, shape: Shape, bench: &Bench) -> io::Result<()> {
    let table = bench.table(shape);
    for q in [0, 1, 255] {
        print_state(rt, &table, &bench.vocabulary, q)?;
    }
    Ok(())
}

// Loads the files into new tables, and prints a few of the states.
fn load_largest(rt: &HostRuntime, files: Files<'_>) -> io::Result<()> {
    let mut bench = Bench::new(rt.alloc(), MAX_MOVES, MAX_STATES)?;
    match bench.load(files) {
        Ok(shape) => print_some(rt, shape, &bench),
        Err(_) => println!(rt; "refused"),
    }
}

// All the limits at once.
fn run_largest(rt: &HostRuntime) -> io::Result<()> {
    let transitions = largest(rt.alloc())?;
    let labels = every_state(rt.alloc(), MAX_STATES)?;
    let files = both(transitions.as_bytes(), labels.as_bytes());
    show(rt, "the largest table", files)?;
    load_largest(rt, files)
}

// One move and three states, into tables of these lengths.
fn run_tables(rt: &HostRuntime) -> io::Result<()> {
    for (records, sets) in [(1, 3), (0, 3), (1, 2), (0, 0), (2, 4)] {
        let mut bench = Bench::new(rt.alloc(), records, sets)?;
        let done = bench.run(rt.alloc(), both(MODEL, LABELS))?;
        let said = done.said;
        println!(rt; "{records} records and {sets} sets: {said}")?;
    }
    Ok(())
}

pub fn run(rt: &HostRuntime) -> io::Result<()> {
    println!(rt; "limits")?;
    run_moves(rt)?;
    run_states(rt)?;
    run_events(rt)?;
    run_names(rt)?;
    run_long_moves(rt)?;
    run_long_labels(rt)?;
    run_full(rt)?;
    run_largest(rt)?;
    run_tables(rt)
}
