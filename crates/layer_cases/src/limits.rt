// The limits of two systems side by side and of a sheet.
use crate::told::Loaded;
use abstraction::sheet::Sheet;
use interleaving::interleaving::Interleaving;
use std::alloc::{AllocError, Global};
use std::io;
use systems::system::System;
use tables::table::Table;

const LABELS: &[u8] = b"0=\"init\" 1=\"deadlock\"\n";

// So many states, and so many moves of the state 0.
fn text(heap: Global, states: u16, moves: u16) -> Result<String, AllocError> {
    let lines = "(0, \"i\", 0)\n".repeat(heap, usize::from(moves))?;
    format!(in heap; "des (0, {moves}, {states})\n{lines}")
}

// The sizes of two tables, and of both side by side or the refusal.
fn beside(rt: &HostRuntime, left: &Table<'_>, right: &Table<'_>) -> io::Result<()> {
    let a = left.states();
    let b = right.states();
    let m = left.move_count(0);
    let n = right.move_count(0);
    match Interleaving::new(left, right) {
        Ok(both) => {
            let states = both.states();
            let moves = both.move_count(0);
            println!(rt;
                "{a} states beside {b}, {m} moves beside {n}: {states} states, {moves} moves"
            )
        }
        Err(e) => {
            let number = u8::from(e);
            println!(rt; "{a} states beside {b}, {m} moves beside {n}: {number}")
        }
    }
}

// A table of so many states and moves beside another.
fn pair(rt: &HostRuntime, a: u16, m: u16, b: u16, n: u16) -> io::Result<()> {
    let heap = rt.alloc();
    let left = Loaded::new(heap, text(heap, a, m)?.as_bytes(), LABELS)?;
    let right = Loaded::new(heap, text(heap, b, n)?.as_bytes(), LABELS)?;
    beside(rt, &left.table(), &right.table())
}

// A sheet takes sixteen rules. The loop only repeats a call, so there are no items to go over.
fn fill(rt: &HostRuntime) -> io::Result<()> {
    let mut sheet = Sheet::new();
    let mut taken = 0u8;
    for _ in 0..20u8 {
        match sheet.add(63, 63) {
            Ok(()) => taken = taken.saturating_add(1),
            Err(e) => {
                let number = u8::from(e);
                println!(rt; "after {taken} rules: {number}")?;
            }
        }
    }
    match sheet.add(64, 64) {
        Ok(()) => println!(rt; "one more"),
        Err(e) => {
            let number = u8::from(e);
            println!(rt; "a rule of no events on a full sheet: {number}")
        }
    }
}

pub(crate) fn run(rt: &HostRuntime) -> io::Result<()> {
    for (a, m, b, n) in [
        (16, 1, 16, 1),
        (16, 1, 17, 1),
        (256, 1, 1, 1),
        (256, 1, 2, 1),
        (1, 512, 1, 512),
        (1, 512, 1, 513),
        (1, 1024, 1, 0),
        (1, 1024, 1, 1),
        (17, 1024, 16, 1),
    ] {
        pair(rt, a, m, b, n)?;
    }
    fill(rt)
}
