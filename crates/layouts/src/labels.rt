// The lines of the label file: `0="init" 1="deadlock" 2="name"`, then `q: i j`.
ghost use Rattle.std.specs.Prelude.{◌≡◌, ◌==◌, if◌then◌else◌, length, Some, None};
ghost use Rattle.layouts.specs.Layouts.{next_at, item_at, state_at, listed_at, seen_item, seen_listed};

use crate::fault::LineFault;
use crate::number::{Number, read_number};
use crate::pieces::{byte_from, read_piece};

// An entry of the line of names, and where the next one starts, if any.
#[derive(Clone, Copy, Debug, PartialEq, Eq)]
pub struct NameItem<'a> {
    pub number: u16,
    pub text: &'a [u8],
    pub next: Option<usize>,
}

// A number listed for a state, and where the next one starts, if any.
#[derive(Clone, Copy, Debug, PartialEq, Eq)]
pub struct ListedNumber {
    pub number: u16,
    pub next: Option<usize>,
}

// The place `at`, unless the line ends there.
fn unless_end(line: &[u8], at: usize) -> Option<usize>
    ensures { result ≡ (if at == length line.now then None else Some at) }
{
    (at != line.len()).then_some(at)
}

// Where the next entry starts: after a space, unless the line ends at `at`.
fn read_next(line: &[u8], at: usize) -> Result<Option<usize>, LineFault>
    ensures { result ≡ next_at line.now at }
{
    unless_end(line, at)
        .map(|at| read_piece(line, at, b" "))
        .transpose()
}

// Reads `k="text"` at `at`, and the space after it, if any.
pub fn read_item<'a>(line: &'a [u8], at: usize) -> Result<NameItem<'a>, LineFault>
    ensures { seen_item result ≡ item_at line.now at }
{
    let number = read_number(line, at)?;
    let start = read_piece(line, number.after, b"=\"")?;
    let quote = byte_from(line, start, b'"');
    let at = read_piece(line, quote, b"\"")?;
    let next = read_next(line, at)?;
    Ok(NameItem {
        number: number.value,
        text: &line[start..quote],
        next,
    })
}

// Reads `q:` at the start of a line; the place after it comes with the state.
pub fn read_state(line: &[u8]) -> Result<Number, LineFault>
    ensures { result ≡ state_at line.now }
{
    let state = read_number(line, 0)?;
    let after = read_piece(line, state.after, b":")?;
    Ok(Number { after, ..state })
}

// Reads a space and a number at `at`.
pub fn read_listed(line: &[u8], at: usize) -> Result<ListedNumber, LineFault>
    ensures { seen_listed result ≡ listed_at line.now at }
{
    let at = read_piece(line, at, b" ")?;
    let number = read_number(line, at)?;
    Ok(ListedNumber {
        number: number.value,
        next: unless_end(line, number.after),
    })
}
