// The lines of a file. A line ends with byte 10; bytes after the last byte 10 are a line too, one that is not ended.
ghost use Rattle.std.specs.Prelude.{◌≡◌, drop};
ghost use Rattle.std.specs.Iterator.{YieldsFirstBy, item_count};
ghost use Rattle.files.specs.Lines.{line_at, seen_line, rows_from, row_of, rows_left, RowsTile};

pub use crate::line::Line;
use layouts::pieces::byte_from;

// The byte that ends a line.
const LINE_END: u8 = 10;

// The line that starts at `at`; none at the file's end and past it.
pub fn line_at<'a>(file: &'a [u8], at: usize) -> Option<Line<'a>>
    ensures { seen_line result ≡ line_at file.now at }
{
    if at >= file.len() {
        return None;
    }
    let end = byte_from(file, at, LINE_END);
    let ended = end < file.len();
    Some(Line {
        start: at,
        text: &file[at..end],
        ended,
        after: if ended { end + 1 } else { end },
    })
}

// The lines of a file from a place on, one after another.
#[derive(Drop)]
pub struct Lines<'a> {
    file: &'a [u8],
    at: usize,
}

impl<'a> Iterator for Lines<'a> {
    type Item = Line<'a>;

    ghost next_gives = { YieldsFirstBy row_of rows_left };

    ghost remaining = { item_count rows_left };

    fn next(&mut self) -> Option<Line<'a>> {
        let line = line_at(self.file, self.at)?;
        self.at = line.after;
        Some(line)
    }
}

// The lines of the file from the place `at` on.
pub fn lines_from<'a>(file: &'a [u8], at: usize) -> Lines<'a>
    ensures { rows_left result ≡ rows_from at (drop at file.now) }
{
    Lines { file, at }
}

// The rows of a file are its bytes, cut behind each byte 10.
pub fn rows_tile_the_file()
    ensures { RowsTile }
{}
