// Loads into a vocabulary with room for one event and one proposition more: what is refused changes nothing.
use crate::bench::Bench;
use crate::texts::{LABELS, both, events, loops, names, padded};
use files::pair::Files;
use std::io;
use systems::limits::MAX_EVENTS;
use text::numbering::NAMES_LIMIT;

// One state, and one event that is new.
const ONE_EVENT: &[u8] = b"des (0, 1, 1)\n(0, \"x\", 0)\n";

const TWO_EVENTS: &[u8] = b"des (0, 2, 1)\n(0, \"x\", 0)\n(0, \"y\", 0)\n";

// One state more than there are places.
const THREE_STATES: &[u8] = b"des (0, 1, 3)\n(0, \"x\", 1)\n";

// One proposition that is new.
const ONE_NAME: &[u8] = b"0=\"init\" 1=\"deadlock\" 2=\"x\"\n0: 2\n";

const TWO_NAMES: &[u8] = b"0=\"init\" 1=\"deadlock\" 2=\"x\" 3=\"y\"\n0: 2 3\n";

const ATTEMPTS: &[Files<'static>] = &[
    Files {
        transitions: b"des(0, 0, 1)\n",
        labels: ONE_NAME,
    },
    Files {
        transitions: b"des (1, 0, 1)\n",
        labels: ONE_NAME,
    },
    Files {
        transitions: b"des (0, 1, 1)\n(0, \"x\", 0)\n(0, \"y\", 0)\n",
        labels: ONE_NAME,
    },
    Files {
        transitions: b"des (0, 2, 1)\n(0, \"x\", 0)\n(0, \"x;or\", 0)\n",
        labels: ONE_NAME,
    },
    Files {
        transitions: b"des (0, 2, 1)\n(0, \"x\", 0)\n(0, \"x\", 1)\n",
        labels: ONE_NAME,
    },
    Files {
        transitions: TWO_EVENTS,
        labels: ONE_NAME,
    },
    Files {
        transitions: TWO_EVENTS,
        labels: b"",
    },
    Files {
        transitions: ONE_EVENT,
        labels: b"0=\"init\" 1=\"dead\"\n",
    },
    Files {
        transitions: ONE_EVENT,
        labels: b"0=\"init\" 1=\"deadlock\" 2=\"x\"\n0: 2\n0: 0\n",
    },
    Files {
        transitions: ONE_EVENT,
        labels: b"0=\"init\" 1=\"deadlock\" 2=\"x\" 3=\"y\"\n0: 4\n",
    },
    Files {
        transitions: THREE_STATES,
        labels: b"0=\"init\" 1=\"deadlock\" 2=\"x\"\n3: 0\n",
    },
    Files {
        transitions: ONE_EVENT,
        labels: TWO_NAMES,
    },
    Files {
        transitions: THREE_STATES,
        labels: TWO_NAMES,
    },
    Files {
        transitions: THREE_STATES,
        labels: ONE_NAME,
    },
    Files {
        transitions: ONE_EVENT,
        labels: ONE_NAME,
    },
    Files {
        transitions: ONE_EVENT,
        labels: ONE_NAME,
    },
    Files {
        transitions: b"des (0, 1, 1)\n(0, \"y\", 0)\n",
        labels: ONE_NAME,
    },
    Files {
        transitions: ONE_EVENT,
        labels: b"0=\"init\" 1=\"deadlock\" 2=\"y\"\n0: 2\n",
    },
];

// Loads the files, and prints what is said and whether anything changed.
fn try_load(rt: &HostRuntime, bench: &mut Bench, files: Files<'_>) -> io::Result<()> {
    let done = bench.run(rt.alloc(), files)?;
    let said = done.said;
    let after = if done.kept {
        "nothing changed"
    } else {
        "changed"
    };
    let events = bench.vocabulary.events().len();
    let propositions = bench.vocabulary.propositions().len();
    println!(rt; "{after}, {events} events {propositions} propositions: {said}")
}

// Texts that are too long, and a table of more moves than there are places.
fn run_long(rt: &HostRuntime, bench: &mut Bench) -> io::Result<()> {
    let heap = rt.alloc();
    let long = padded(heap, "", 65_536)?;
    let many = loops(heap, 65)?;
    try_load(rt, bench, both(long.as_bytes(), ONE_NAME))?;
    try_load(rt, bench, both(ONE_EVENT, long.as_bytes()))?;
    try_load(rt, bench, both(TWO_EVENTS, long.as_bytes()))?;
    try_load(rt, bench, both(many.as_bytes(), LABELS))
}

pub fn run(rt: &HostRuntime) -> io::Result<()> {
    println!(rt; "what a refusal leaves")?;
    let heap = rt.alloc();
    // The 64 records are no limit: they hold the moves of the first load, one for each of 63 events and one for none.
    let mut bench = Bench::new(heap, 64, 2)?;
    let transitions = events(heap, MAX_EVENTS - 1, 0)?;
    let labels = names(heap, NAMES_LIMIT - 1)?;
    try_load(
        rt,
        &mut bench,
        both(transitions.as_bytes(), labels.as_bytes()),
    )?;
    run_long(rt, &mut bench)?;
    for files in ATTEMPTS {
        try_load(rt, &mut bench, *files)?;
    }
    Ok(())
}
