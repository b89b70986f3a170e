// Texts with two things wrong: the question that comes first is the one that is answered.
use crate::bench::outcome;
use crate::texts::{LABELS, MODEL};
use files::pair::Files;
use std::io;

struct Pair {
    title: &'static str,
    files: Files<'static>,
}

const PAIRS: &[Pair] = &[
    Pair {
        title: "2 and 4",
        files: Files {
            transitions: b"des (0, 01, 1)\nx\n",
            labels: LABELS,
        },
    },
    Pair {
        title: "2 and 9",
        files: Files {
            transitions: b"",
            labels: b"",
        },
    },
    Pair {
        title: "3 and 4",
        files: Files {
            transitions: b"des (0, 1, 0)\nx\n",
            labels: LABELS,
        },
    },
    Pair {
        title: "3 and 9",
        files: Files {
            transitions: b"des (1, 0, 1)\n",
            labels: b"",
        },
    },
    Pair {
        title: "4 behind 5",
        files: Files {
            transitions: b"des (0, 2, 2)\n(0, \"true\", 1)\n(0, x, 1)\n",
            labels: LABELS,
        },
    },
    Pair {
        title: "4 behind 5 for a missing line",
        files: Files {
            transitions: b"des (0, 2, 2)\n(0, \"\", 1)\n",
            labels: LABELS,
        },
    },
    Pair {
        title: "4 behind 6 for a line too many",
        files: Files {
            transitions: b"des (0, 1, 2)\n(5, \"a\", 1)\n(0, \"a\", 1)\n",
            labels: LABELS,
        },
    },
    Pair {
        title: "4 and 4",
        files: Files {
            transitions: b"des (0, 2, 2)\n(0, x, 1)\n(0, y, 1)\n",
            labels: LABELS,
        },
    },
    Pair {
        title: "4 and 9",
        files: Files {
            transitions: b"des (0, 1, 2)\n",
            labels: b"",
        },
    },
    Pair {
        title: "5 behind 6",
        files: Files {
            transitions: b"des (0, 2, 2)\n(2, \"a\", 1)\n(0, \"true\", 1)\n",
            labels: LABELS,
        },
    },
    Pair {
        title: "5 and 6 in one line",
        files: Files {
            transitions: b"des (0, 1, 2)\n(2, \"true\", 1)\n",
            labels: LABELS,
        },
    },
    Pair {
        title: "5 and 5",
        files: Files {
            transitions: b"des (0, 2, 2)\n(0, \"i;a\", 1)\n(0, \"true\", 1)\n",
            labels: LABELS,
        },
    },
    Pair {
        title: "5 and 9",
        files: Files {
            transitions: b"des (0, 1, 2)\n(0, \"a;b;i\", 1)\n",
            labels: b"0=\"init\"\n",
        },
    },
    Pair {
        title: "6 and 6",
        files: Files {
            transitions: b"des (0, 2, 2)\n(0, \"a\", 2)\n(2, \"a\", 0)\n",
            labels: LABELS,
        },
    },
    Pair {
        title: "6 and 10",
        files: Files {
            transitions: b"des (0, 1, 2)\n(0, \"a\", 2)\n",
            labels: b"0=\"init\" 1=\"deadlock\"\n0: 2\n",
        },
    },
    Pair {
        title: "9 and 10",
        files: Files {
            transitions: MODEL,
            labels: b"0=\"init\" 1=\"dead\"\n9: 9\n",
        },
    },
    Pair {
        title: "10 and 10",
        files: Files {
            transitions: MODEL,
            labels: b"0=\"init\" 1=\"deadlock\"\n1: 0\n0: 0\n3: 0\n",
        },
    },
];

pub fn run(rt: &HostRuntime) -> io::Result<()> {
    println!(rt; "two things wrong")?;
    for pair in PAIRS {
        let title = pair.title;
        let said = outcome(rt.alloc(), pair.files)?;
        println!(rt; "{title}: {said}")?;
    }
    Ok(())
}
