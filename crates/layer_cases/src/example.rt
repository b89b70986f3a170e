// The example beside itself, and behind sheets of rules.
use crate::told::{Loaded, tell};
use abstraction::abstraction::Abstraction;
use abstraction::sheet::Sheet;
use interleaving::interleaving::Interleaving;
use std::io;
use systems::system::System;
use tables::table::Table;

const TRANSITIONS: &[u8] =
    b"des (0, 4, 4)\n(0, \"i\", 1)\n(1, \"head:press.hold\", 2)\n(2, \"head:press.release;head:dryer.less\", 1)\n(2, \"head:out.stop\", 3)\n";

const LABELS: &[u8] = b"0=\"init\" 1=\"deadlock\" 2=\"cold\" 3=\"reading\"\n0: 0 2\n2: 3\n3: 1\n";

// Prints two systems side by side, or the refusal.
fn tell_both<A: System, B: System>(rt: &HostRuntime, title: &str, a: &A, b: &B) -> io::Result<()> {
    match Interleaving::new(a, b) {
        Ok(both) => tell(rt, title, &both),
        Err(e) => {
            let number = u8::from(e);
            println!(rt; "{title}: {number}")
        }
    }
}

// Adds a rule and prints what came of it.
fn add(rt: &HostRuntime, sheet: &mut Sheet, seen: u8, shown: u8) -> io::Result<()> {
    match sheet.add(seen, shown) {
        Ok(()) => println!(rt; "rule {seen} {shown}: added"),
        Err(e) => {
            let number = u8::from(e);
            println!(rt; "rule {seen} {shown}: {number}")
        }
    }
}

// Two systems side by side, behind a sheet.
fn tell_behind<A: System, B: System>(
    rt: &HostRuntime,
    title: &str,
    a: &A,
    b: &B,
    sheet: Sheet,
) -> io::Result<()> {
    match Interleaving::new(a, b) {
        Ok(both) => tell(rt, title, &Abstraction::new(&both, sheet)),
        Err(_) => println!(rt; "{title}: refused"),
    }
}

// The example alone, beside itself, and behind sheets.
fn tell_table(rt: &HostRuntime, table: &Table<'_>) -> io::Result<()> {
    tell(rt, "example", table)?;
    // A second borrow: one reference for two parameters, each with references inside, is not covered by the borrow checker.
    tell_both(rt, "example beside itself", table, &*table)?;
    let blind = Sheet::new();
    tell(
        rt,
        "example behind an empty sheet",
        &Abstraction::new(table, blind),
    )?;
    let mut sheet = Sheet::new();
    add(rt, &mut sheet, 0, 63)?;
    add(rt, &mut sheet, 1, 0)?;
    add(rt, &mut sheet, 2, 0)?;
    add(rt, &mut sheet, 64, 0)?;
    add(rt, &mut sheet, 0, 64)?;
    let inner = Abstraction::new(table, sheet);
    tell(rt, "example behind a sheet", &inner)?;
    tell_behind(
        rt,
        "a sheet over a sheet beside the example",
        &inner,
        table,
        sheet,
    )
}

pub(crate) fn run(rt: &HostRuntime) -> io::Result<()> {
    let loaded = Loaded::new(rt.alloc(), TRANSITIONS, LABELS)?;
    tell_table(rt, &loaded.table())
}
