// The first line of a file, and where the others begin.
ghost use Rattle.std.specs.Prelude.{◌≡◌};
ghost use Rattle.files.specs.Lines.{rows_of, rows_left};
ghost use Rattle.transition_file.specs.TransitionPart.{header_row, body_start, body};

use files::lines::{Lines, line_at, lines_from};
use layouts::transitions::{Header, read_header};

// The header, where the first line is ended and holds one.
pub(crate) fn first_header(file: &[u8]) -> Option<Header>
    ensures { result ≡ header_row (rows_of file.now) }
{
    let line = lines_from(file, 0).next().filter(|line| line.ended)?;
    read_header(line.text).ok()
}

// The place behind the first line.
pub fn body_start(file: &[u8]) -> usize
    ensures { result ≡ body_start file.now }
{
    line_at(file, 0).map_or(0, |line| line.after)
}

// The lines behind the first.
pub fn body_lines<'a>(file: &'a [u8]) -> Lines<'a>
    ensures { rows_left result ≡ body file.now }
{
    lines_from(file, body_start(file))
}
