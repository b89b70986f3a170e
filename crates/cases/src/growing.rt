// Loads into one vocabulary, one after the other.
use crate::bench::Bench;
use crate::facts::{names_text, set_text};
use crate::texts::LABELS;
use files::pair::Files;
use std::io;

// The files, in the order in which they are loaded. The last have names that are nearly the same, and one that is an event and a
// proposition.
const LOADS: &[Files<'static>] = &[
    Files {
        transitions: b"des (0, 2, 2)\n(0, \"b;a\", 1)\n(1, \"c\", 0)\n",
        labels: b"0=\"init\" 1=\"deadlock\" 2=\"p\" 3=\"q\"\n0: 0 3\n1: 2\n",
    },
    Files {
        transitions: b"des (1, 3, 3)\n(0, \"c;d\", 1)\n(1, \"i\", 2)\n(2, \"d;b;d\", 0)\n",
        labels: b"0=\"init\" 1=\"deadlock\" 2=\"q\" 3=\"r\" 4=\"p\"\n0: 2 3\n2: 1 2 4\n",
    },
    Files {
        transitions: b"des (0, 0, 1)\n",
        labels: LABELS,
    },
    Files {
        transitions: b"des (0, 1, 1)\n(0, \"abcdefghijklmnopqrstuvwx;abcdefghijklmnopqrstuvwy;a.;a\", 0)\n",
        labels: b"0=\"init\" 1=\"deadlock\" 2=\"b\" 3=\"pp\"\n0: 1 2 3\n",
    },
];

// The names, in the order of their numbers.
pub fn print_names(rt: &HostRuntime, bench: &Bench) -> io::Result<()> {
    let events = names_text(rt.alloc(), bench.vocabulary.events())?;
    let propositions = names_text(rt.alloc(), bench.vocabulary.propositions())?;
    println!(rt; "events:{events}")?;
    println!(rt; "propositions:{propositions}")
}

// Every record and every set, also those behind the table.
fn print_places(rt: &HostRuntime, bench: &Bench) -> io::Result<()> {
    for r in bench.records.iter() {
        let source = r.source;
        let target = r.target;
        let events = set_text(rt.alloc(), r.events, bench.vocabulary.events())?;
        println!(rt; "  {source} [{events}] {target}")?;
    }
    for set in bench.sets.iter() {
        let held = set_text(rt.alloc(), *set, bench.vocabulary.propositions())?;
        println!(rt; "  [{held}]")?;
    }
    Ok(())
}

// Loads the files, and prints all that there is then.
fn load_more(rt: &HostRuntime, bench: &mut Bench, files: Files<'_>) -> io::Result<()> {
    let done = bench.run(rt.alloc(), files)?;
    let said = done.said;
    println!(rt; "{said}")?;
    print_names(rt, bench)?;
    print_places(rt, bench)
}

pub fn run(rt: &HostRuntime) -> io::Result<()> {
    println!(rt; "one load after the other")?;
    let mut bench = Bench::new(rt.alloc(), 4, 4)?;
    for files in LOADS {
        load_more(rt, &mut bench, *files)?;
    }
    Ok(())
}
