// The lines of the transition file: `des (I, M, N)`, then `(F, "L", T)`.
ghost use Rattle.std.specs.Prelude.{◌≡◌};
ghost use Rattle.layouts.specs.Layouts.{header_of, transition_of, seen_arrow};

use crate::fault::LineFault;
use crate::number::read_number;
use crate::pieces::{byte_from, read_end, read_piece};

// The first line: any three numbers.
#[derive(Clone, Copy, Debug, PartialEq, Eq)]
pub struct Header {
    pub initial: u16,
    pub transitions: u16,
    pub states: u16,
}

// A line of a transition: any two numbers and any text between the quote marks.
#[derive(Clone, Copy, Debug, PartialEq, Eq)]
pub struct TransitionLine<'a> {
    pub source: u16,
    pub label: &'a [u8],
    pub target: u16,
}

// Reads `des (I, M, N)`, the whole line.
pub fn read_header(line: &[u8]) -> Result<Header, LineFault>
    ensures { result ≡ header_of line.now }
{
    let at = read_piece(line, 0, b"des (")?;
    let initial = read_number(line, at)?;
    let at = read_piece(line, initial.after, b", ")?;
    let transitions = read_number(line, at)?;
    let at = read_piece(line, transitions.after, b", ")?;
    let states = read_number(line, at)?;
    let at = read_piece(line, states.after, b")")?;
    read_end(line, at)?;
    Ok(Header {
        initial: initial.value,
        transitions: transitions.value,
        states: states.value,
    })
}

// Reads `(F, "L", T)`, the whole line.
pub fn read_transition<'a>(line: &'a [u8]) -> Result<TransitionLine<'a>, LineFault>
    ensures { seen_arrow result ≡ transition_of line.now }
{
    let at = read_piece(line, 0, b"(")?;
    let source = read_number(line, at)?;
    let start = read_piece(line, source.after, b", \"")?;
    let quote = byte_from(line, start, b'"');
    let at = read_piece(line, quote, b"\", ")?;
    let target = read_number(line, at)?;
    let at = read_piece(line, target.after, b")")?;
    read_end(line, at)?;
    Ok(TransitionLine {
        source: source.value,
        label: &line[start..quote],
        target: target.value,
    })
}
