// Small texts with at most one thing wrong.
use crate::answers::text_of;
use crate::bench::outcome;
use crate::texts::{LABELS, MODEL, both, labelled, marked};
use std::io;

// First lines of a transition file, and what follows.
const HEADERS: &[&[u8]] = &[
    b"",
    b"\n",
    b"des (0, 0, 1)",
    b"des(0, 1, 1)\n(0, \"i\", 0)\n",
    b"des (0, 01, 1)\n(0, \"i\", 0)\n",
    b"des (00, 0, 1)\n",
    b"des (0, 10000, 1)\n",
    b"des (0,0, 1)\n",
    b"des (0, 0,  1)\n",
    b"des (0, 0, 1) \n",
    b"des (0, 0, 1)\r\n",
    b" des (0, 0, 1)\n",
    b"Des (0, 0, 1)\n",
    b"des (0, 0)\n",
    b"des (0, 0, 1\n",
    b"des (-0, 0, 1)\n",
    b"des (, 0, 1)\n",
    b"\ndes (0, 0, 1)\n",
    b"des (0, 0, 0)\n",
    b"des (0, 0, 257)\n",
    b"des (0, 1025, 1)\n",
    b"des (0, 9999, 1)\n",
    b"des (1, 0, 1)\n",
    b"des (256, 0, 256)\n",
    b"des (0, 0, 1)\n",
    b"des (255, 0, 256)\n",
];

// Transition files with a lawful first line.
const MOVES: &[&[u8]] = &[
    b"des (0, 1, 2)\n",
    b"des (0, 1024, 1)\n",
    b"des (0, 2, 2)\n(0, \"a\", 1)\n",
    b"des (0, 1, 2)\n(0, \"a\", 1)",
    b"des (0, 1, 2)\n(0, \"a\", 1)\n(1, \"a\", 0)\n",
    b"des (0, 0, 2)\n(0, \"a\", 1)\n",
    b"des (0, 1, 2)\n(0, \"a\", 1)\nx",
    b"des (0, 1, 2)\n(0, \"a\", 1)\n\n",
    b"des (0, 2, 2)\n(0, \"a\", 1)\n\n(1, \"a\", 0)\n",
    b"des (0, 2, 2)\n(0, \"a\", 1)\n[1, \"a\", 0]\n",
    b"des (0, 1, 2)\n(0, a, 1)\n",
    b"des (0, 1, 2)\n(0, \"a, 1)\n",
    b"des (0, 1, 2)\n(0, \"a\"b\", 1)\n",
    b"des (0, 1, 2)\n(0, \"a\nb\", 1)\n",
    b"des (0, 1, 2)\n(0, \"a\", 1\", 1)\n",
    b"des (0, 1, 2)\n(0,\"a\", 1)\n",
    b"des (0, 1, 2)\n(0, \"a\",  1)\n",
    b"des (0, 1, 2)\n(00, \"a\", 1)\n",
    b"des (0, 1, 2)\n(0, \"a\", 01)\n",
    b"des (0, 1, 2)\n(0, \"a\", 10000)\n",
    b"des (0, 1, 2)\n(0, \"a\", 1).\n",
    b"des (0, 1, 2)\n(0, \"a\", 1)\r\n",
    b"des (0, 1, 2)\n(2, \"a\", 1)\n",
    b"des (0, 1, 2)\n(0, \"a\", 2)\n",
    b"des (0, 1, 2)\n(9999, \"i\", 0)\n",
    b"des (0, 2, 2)\n(0, \"a\", 1)\n(1, \"a\", 9)\n",
    b"des (0, 1, 256)\n(255, \"a\", 256)\n",
    b"des (0, 1, 256)\n(255, \"a\", 255)\n",
];

// Transition files with bytes that are not text.
const BYTES: &[&[u8]] = &[
    b"\xff\xfe",
    b"des (0, 1, 2)\xff\n(0, \"a\", 1)\n",
    b"des (0, 1, 2)\n\x00",
    b"des (0, 1, 2)\n(0, \"a\", 1\x80)\n",
    b"des (0, 1, 2)\n(0, \"\xff\", 1)\n",
    b"des (0, 1, 2)\n(0, \"a;\x00\", 1)\n",
];

// Labels of a move.
const MOVE_LABELS: &[&str] = &[
    "",
    "i",
    "i;a",
    "a;i",
    "i;i",
    "a;b;i",
    "true",
    "false",
    "FINAL",
    "not",
    "and",
    "or",
    "tau",
    "min",
    "max",
    "E",
    "A",
    "U",
    "EX",
    "AX",
    "EF",
    "AG",
    "a;tau",
    "True;I;ii;EG;AF;e;u;tau.x",
    "a;b;c;d;e;f;g;h",
    "a;b;c;d;e;f;g;h;j",
    "a;a;a;a;a;a;a;a",
    "a;a;a;a;a;a;a;a;a",
    "abcdefghijklmnopqrstuvwx",
    "abcdefghijklmnopqrstuvwxy",
    "1a",
    ".a",
    ":a",
    "a:",
    "a::b",
    "a:b:1",
    "a.:._",
    "a.",
    "_",
    "_1",
    "a;",
    ";a",
    "a;;b",
    ";",
    "a b",
    " a",
    "a; b",
    "a-b",
    "a,b",
    "a\tb",
    "\u{e9}",
    "a\0",
    "\u{7f}",
    "a;abcdefghijklmnopqrstuvwxy",
    "abcdefghijklmnopqrstuvw:",
    "abcdefghijklmnopqrstuv:x",
];

// First lines of a label file.
const NAMES: &[&[u8]] = &[
    b"",
    b"\n",
    b"0=\"init\" 1=\"deadlock\"",
    b"0=\"init\" 1=\"dead\"\n",
    b"1=\"init\" 2=\"deadlock\"\n",
    b"0=\"deadlock\" 1=\"init\"\n",
    b"0=\"init\"\n",
    b"0=\"init\" 1=\"deadlock\" 2=\"a\" 3=\"a\"\n",
    b"0=\"init\" 1=\"deadlock\" 2=\"init\"\n",
    b"0=\"init\" 1=\"deadlock\" 2=\"true\"\n",
    b"0=\"init\" 1=\"deadlock\" 2=\"i\"\n",
    b"0=\"init\" 1=\"deadlock\" 3=\"a\"\n",
    b"0=\"init\" 1=\"deadlock\" 2=\"a\" 2=\"b\"\n",
    b"0=\"init\" 1=\"deadlock\" 02=\"a\"\n",
    b"0=\"init\"  1=\"deadlock\"\n",
    b"0=\"init\",1=\"deadlock\"\n",
    b"0=\"init\" 1=\"deadlock\" \n",
    b" 0=\"init\" 1=\"deadlock\"\n",
    b"0=\"init\" 1=\"deadlock\"\r\n",
    b"0=init 1=deadlock\n",
    b"0=\"init\" 1=\"deadlock\" 2=\"\"\n",
    b"0=\"init\" 1=\"deadlock\" 2=\"a\n",
    b"0=\"init\" 1=\"deadlock\" 2=\"a;b\"\n",
    b"0=\"init\" 1=\"deadlock\" 2=\"1a\"\n",
    b"0=\"init\" 1=\"deadlock\" 2=\"abcdefghijklmnopqrstuvwxy\"\n",
    b"0=\"init\" 1=\"deadlock\" 2=\"abcdefghijklmnopqrstuvwx\"\n",
    b"0=\"init\" 1=\"deadlock\" 2=\"a:b.c\"\n",
    b"0=\"init\" 1=\"deadlock\"\n",
];

// What follows the first line of a label file.
const STATES: &[&str] = &[
    "",
    "0: 0\n1: 1 2\n2: 0 1 2\n",
    "1: 1\n",
    "0: 0",
    "0: 0\n1: 1",
    "1: 0\n0: 0\n",
    "1: 0\n1: 1\n",
    "0: 0\n2: 1\n1: 2\n",
    "3: 0\n",
    "0: 3\n",
    "0: 0 2 3\n",
    "0: 0\n2: 9999\n",
    "0: 1 0\n",
    "0: 1 1\n",
    "0:\n",
    "0: \n",
    "00: 0\n",
    "0: 00\n",
    "0: 01\n",
    "0:  0\n",
    "0: 0  1\n",
    "0: 0 \n",
    " 0: 0\n",
    "0 : 0\n",
    "0:0\n",
    "0: 0,1\n",
    "0: 0\r\n",
    "10000: 0\n",
    "0: 10000\n",
    "x: 0\n",
    "\n",
    "0: 0\n\n1: 1\n",
    "0: 0\nx",
    "0: 0x\n",
    "0: 1 2 0\n",
];

// Prints the text and what was said of it.
fn show(rt: &HostRuntime, text: &[u8], said: &String) -> io::Result<()> {
    let text = text_of(rt.alloc(), text)?;
    println!(rt; "[{text}] {said}")
}

// Each of the transition files, with lawful labels.
fn run_transitions(rt: &HostRuntime, title: &str, texts: &[&[u8]]) -> io::Result<()> {
    println!(rt; "{title}")?;
    for text in texts {
        let said = outcome(rt.alloc(), both(text, LABELS))?;
        show(rt, text, &said)?;
    }
    Ok(())
}

// Each of the labels, on a move.
fn run_labels(rt: &HostRuntime) -> io::Result<()> {
    println!(rt; "labels of moves")?;
    for label in MOVE_LABELS {
        let text = labelled(rt.alloc(), label)?;
        let said = outcome(rt.alloc(), both(text.as_bytes(), LABELS))?;
        show(rt, label.as_bytes(), &said)?;
    }
    Ok(())
}

// Each of the lines of names.
fn run_names(rt: &HostRuntime) -> io::Result<()> {
    println!(rt; "lines of names")?;
    for text in NAMES {
        let said = outcome(rt.alloc(), both(MODEL, text))?;
        show(rt, text, &said)?;
    }
    Ok(())
}

// Each of the texts below a line of names.
fn run_states(rt: &HostRuntime) -> io::Result<()> {
    println!(rt; "lines of states")?;
    for lines in STATES {
        let text = marked(rt.alloc(), lines)?;
        let said = outcome(rt.alloc(), both(MODEL, text.as_bytes()))?;
        show(rt, lines.as_bytes(), &said)?;
    }
    Ok(())
}

pub fn run(rt: &HostRuntime) -> io::Result<()> {
    run_transitions(rt, "first lines", HEADERS)?;
    run_transitions(rt, "moves", MOVES)?;
    run_transitions(rt, "bytes that are not text", BYTES)?;
    run_labels(rt)?;
    run_names(rt)?;
    run_states(rt)
}
