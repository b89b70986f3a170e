// Tables over records and sets that are not as the load left them.
use crate::bench::Bench;
use crate::facts::{print_facts, print_move, print_state};
use files::pair::Files;
use loading::shape::Shape;
use std::io;
use systems::transition::Transition;

const FILES: Files<'static> = Files {
    transitions: b"des (1, 4, 3)\n(0, \"a\", 1)\n(1, \"b\", 2)\n(0, \"i\", 2)\n(2, \"a;b\", 0)\n",
    labels: b"0=\"init\" 1=\"deadlock\" 2=\"p\"\n0: 2\n1: 0\n2: 1 2\n",
};

// Puts a record at a place.
fn put(bench: &mut Bench, place: usize, source: u16, events: u64, target: u16) {
    if let Some(record) = bench.records.get_mut(place) {
        *record = Transition {
            source,
            events,
            target,
        };
    }
}

// The facts of the table over all the records and sets.
fn print_all(rt: &HostRuntime, title: &str, shape: Shape, bench: &Bench) -> io::Result<()> {
    println!(rt; "{title}")?;
    let table = bench.table(shape);
    print_facts(rt, &table, &bench.vocabulary)
}

// States and moves past the last ones.
fn print_past(rt: &HostRuntime, shape: Shape, bench: &Bench) -> io::Result<()> {
    println!(rt; "past the last state and the last move")?;
    let table = bench.table(shape);
    for q in [3, 4, 256, 65_535] {
        print_state(rt, &table, &bench.vocabulary, q)?;
        print_move(rt, &table, &bench.vocabulary, q, 0)?;
    }
    for i in [1, 2, 3, usize::MAX] {
        print_move(rt, &table, &bench.vocabulary, 0, i)?;
    }
    Ok(())
}

// Records that join no two states, one of another state, and a set.
fn run_altered(rt: &HostRuntime, shape: Shape, bench: &mut Bench) -> io::Result<()> {
    put(bench, 1, 0, 2, 9);
    print_all(rt, "a record between two moves that is none", shape, bench)?;
    put(bench, 1, 1, 2, 3);
    print_all(rt, "a target out of range", shape, bench)?;
    put(bench, 3, 3, 3, 0);
    print_all(rt, "a source out of range too", shape, bench)?;
    put(bench, 0, 2, 1 << 63, 2);
    print_all(
        rt,
        "a move of another state, with the last event",
        shape,
        bench,
    )?;
    if let Some(set) = bench.sets.get_mut(1) {
        *set = 1 << 63;
    }
    print_all(rt, "a set of the last proposition", shape, bench)
}

// Records in another order, then fewer places than the shape says.
fn run_shorter(rt: &HostRuntime, shape: Shape, bench: &mut Bench) -> io::Result<()> {
    bench.records.truncate(4);
    bench.records.as_mut_slice().reverse();
    print_all(rt, "the other way round", shape, bench)?;
    bench.records.truncate(2);
    bench.sets.truncate(1);
    print_all(rt, "two records and one set", shape, bench)?;
    bench.records.clear();
    bench.sets.clear();
    print_all(rt, "no records and no sets", shape, bench)
}

pub fn run(rt: &HostRuntime) -> io::Result<()> {
    println!(rt; "altered tables")?;
    let mut bench = Bench::new(rt.alloc(), 6, 5)?;
    let Ok(shape) = bench.load(FILES) else {
        return println!(rt; "refused");
    };
    put(&mut bench, 4, 0, 1, 0);
    put(&mut bench, 5, 2, 1, 2);
    print_all(rt, "more records and sets than are read", shape, &bench)?;
    print_past(rt, shape, &bench)?;
    run_altered(rt, shape, &mut bench)?;
    let Ok(shape) = bench.load(FILES) else {
        return println!(rt; "refused");
    };
    run_shorter(rt, shape, &mut bench)
}
