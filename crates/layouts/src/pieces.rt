// Fixed pieces and quoted text in a line. A reader takes the line and a place. A cursor with methods was tried in three forms, and then
// the check left four to six exits of `read_header` open, where it leaves none of these.
ghost use Rattle.std.specs.Prelude.{◌≡◌, ◌+◌, ◌==◌, drop, length};
ghost use Rattle.std.specs.List.{take_while, zip, position};
ghost use Rattle.layouts.specs.Pieces.{piece_at, before, end_at};

use crate::fault::LineFault;
use lists::rest_from;

// How many bytes of the piece stand at the front of the text.
fn matched(text: &[u8], piece: &[u8]) -> usize
    ensures { result ≡ length (take_while (λ q. q.0 == q.1) (zip text.now piece.now)) }
{
    text.iter().zip(piece).take_while(|(b, p)| b == p).count()
}

// Where the first byte `wanted` stands.
fn place_in(text: &[u8], wanted: u8) -> Option<usize>
    ensures { result ≡ position (λ b. b == wanted) text.now }
{
    text.iter().position(|b| *b == wanted)
}

// Reads the piece at `at`, and gives the place after it.
pub(crate) fn read_piece(line: &[u8], at: usize, piece: &[u8]) -> Result<usize, LineFault>
    ensures { result ≡ piece_at line.now at piece.now }
{
    let same = matched(rest_from(line, at), piece);
    if same == piece.len() {
        Ok(at + same)
    } else {
        Err(LineFault::Other { at: at + same })
    }
}

// The place of the first byte `wanted` from `at` on, or where the text ends.
pub fn byte_from(text: &[u8], at: usize, wanted: u8) -> usize
    ensures { result ≡ at + before wanted (drop at text.now) }
{
    let rest = rest_from(text, at);
    at + place_in(rest, wanted).unwrap_or(rest.len())
}

// Asks that the line ends at `at`.
pub(crate) fn read_end(line: &[u8], at: usize) -> Result<(), LineFault>
    ensures { result ≡ end_at line.now at }
{
    if at == line.len() {
        Ok(())
    } else {
        Err(LineFault::Other { at })
    }
}
