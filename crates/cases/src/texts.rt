// Builds the texts of files. What a loop counts here are the states, events and places that stand in the lines.
ghost use Rattle.std.specs.Prelude.{◌<◌};

use files::pair::Files;
use std::alloc::{AllocError, Global};
use std::fmt::Write;
use systems::limits::{MAX_MOVES, MAX_STATES};
use text::numbering::NAMES_LIMIT;

// A label file that fits every transition file.
pub const LABELS: &[u8] = b"0=\"init\" 1=\"deadlock\"\n0: 0\n";

// A transition file with three states.
pub const MODEL: &[u8] = b"des (0, 1, 3)\n(0, \"a\", 1)\n";

// The two files of a load.
pub fn both<'a>(transitions: &'a [u8], labels: &'a [u8]) -> Files<'a> {
    Files {
        transitions,
        labels,
    }
}

// A word of 24 bytes, the longest that names something.
const LONGEST: &str = "abcdefghijklmnopqrstuvwx";

// A transition file of one move with this label.
pub fn labelled(heap: Global, label: &str) -> Result<String, AllocError> {
    format!(in heap; "des (0, 1, 2)\n(0, \"{label}\", 1)\n")
}

// A label file with three names and these lines below them.
pub fn marked(heap: Global, lines: &str) -> Result<String, AllocError> {
    format!(in heap; "0=\"init\" 1=\"deadlock\" 2=\"cold\"\n{lines}")
}

// A transition file with so many moves without events.
pub fn loops(heap: Global, moves: usize) -> Result<String, AllocError> {
    let lines = "(0, \"i\", 0)\n".repeat(heap, moves)?;
    format!(in heap; "des (0, {moves}, 1)\n{lines}")
}

// A transition file with a move for each of so many events; the last line leads to `target`.
pub fn events(heap: Global, count: u8, target: u16) -> Result<String, AllocError> {
    let moves = u16::from(count) + 1;
    let mut text = format!(in heap; "des (0, {moves}, 1)\n")?;
    for event in 0..count {
        writeln!(text, "(0, \"e{event}\", 0)")?;
    }
    writeln!(text, "(0, \"i\", {target})")?;
    Ok(text)
}

// The eight events of a group, joined.
fn group(heap: Global, number: usize) -> Result<String, AllocError>
    requires { number < 8 }
{
    let first = number * 8;
    let mut text = format!(in heap; "e{first}")?;
    for event in first + 1..first + 8 {
        write!(text, ";e{event}")?;
    }
    Ok(text)
}

// A transition file with the most states, the most moves and 64 events, eight of them on each move.
pub fn largest(heap: Global) -> Result<String, AllocError> {
    let mut text = format!(in heap; "des (255, {MAX_MOVES}, {MAX_STATES})\n")?;
    for k in 0..MAX_MOVES {
        let source = k % MAX_STATES;
        let label = group(heap, k % 8)?;
        let target = k / 4;
        writeln!(text, "({source}, \"{label}\", {target})")?;
    }
    Ok(text)
}

// A line of so many names: `init`, `deadlock`, and `p2` and so on.
pub fn names(heap: Global, count: usize) -> Result<String, AllocError> {
    let mut text = String::from_str(heap, "0=\"init\" 1=\"deadlock\"")?;
    for k in 2..count {
        write!(text, " {k}=\"p{k}\"")?;
    }
    writeln!(text)?;
    Ok(text)
}

// A label file with a line for each of so many states.
pub fn every_state(heap: Global, states: usize) -> Result<String, AllocError> {
    let mut text = String::from_str(heap, "0=\"init\" 1=\"deadlock\"\n")?;
    for state in 0..states {
        writeln!(text, "{state}: 0 1")?;
    }
    Ok(text)
}

// The longest label, but for its last name.
fn long_label(heap: Global, last: &str) -> Result<String, AllocError> {
    let others = format!(in heap; "{LONGEST};")?.repeat(heap, 7)?;
    format!(in heap; "{others}{last}")
}

// A transition file of 312 moves with the longest labels, but for the last name of the last one.
pub fn long_moves(heap: Global, last: &str) -> Result<String, AllocError> {
    let label = long_label(heap, LONGEST)?;
    let lines = format!(in heap; "(0, \"{label}\", 0)\n")?.repeat(heap, 311)?;
    let label = long_label(heap, last)?;
    format!(in heap; "des (0, 312, 1)\n{lines}(0, \"{label}\", 0)\n")
}

// The longest line of names, the last 62 of 24 bytes.
fn long_names(heap: Global) -> Result<String, AllocError> {
    let mut text = String::from_str(heap, "0=\"init\" 1=\"deadlock\"")?;
    for k in 2..NAMES_LIMIT {
        write!(text, " {k}=\"abcdefghijklmnopqrstuv{k:02}\"")?;
    }
    writeln!(text)?;
    Ok(text)
}

// The longest lawful label file: the most names, all of them in each of the most states.
pub fn long_labels(heap: Global) -> Result<String, AllocError> {
    let mut numbers = String::new(heap);
    for k in 0..NAMES_LIMIT {
        write!(numbers, " {k}")?;
    }
    let mut text = long_names(heap)?;
    for state in 0..MAX_STATES {
        writeln!(text, "{state}:{numbers}")?;
    }
    Ok(text)
}

// The text with bytes `x` behind it, up to this size.
pub fn padded(heap: Global, front: &str, size: usize) -> Result<String, AllocError> {
    let rest = "x".repeat(heap, size.saturating_sub(front.len()))?;
    format!(in heap; "{front}{rest}")
}
