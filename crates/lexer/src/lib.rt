// The tokens of formula text, handed out one by one.
#![tactic(auto)]

ghost use Rattle.std.specs.Prelude.{◌≡◌, ◌+◌, drop, length};
ghost use Rattle.std.specs.List.{take_while};
ghost use Rattle.lexer.specs.Tokens.{is_blank, mark_of, blanks, token_at, seen_token};

use classes::{Class, class_of};
use lists::rest_from;
use text::words::{WORD_LIMIT, is_start, word_len};

#[derive(Clone, Copy, Debug, PartialEq, Eq)]
pub enum Mark {
    OpenRound,
    CloseRound,
    OpenSquare,
    CloseSquare,
    OpenCurly,
    CloseCurly,
    OpenAngle,
    CloseAngle,
    Colon,
}

// A word is a part of the text. The end is a token like the others, with a place, and not the lack of one.
#[derive(Clone, Copy, Debug, PartialEq, Eq)]
pub enum Token<'a> {
    End,
    Mark(Mark),
    Word(&'a [u8]),
}

// A token, the place where it starts, and the place behind it.
#[derive(Clone, Copy, Debug, PartialEq, Eq)]
pub struct Placed<'a> {
    pub token: Token<'a>,
    pub start: usize,
    pub after: usize,
}

// At the place `at` stands neither a mark nor a word: a byte that may not stand there, or a run that is too long.
#[derive(Clone, Copy, Debug, PartialEq, Eq)]
pub struct TokenFault {
    pub at: usize,
}

// Whether the byte divides tokens.
fn is_blank(b: u8) -> bool
    ensures { result ≡ is_blank b }
{
    matches!(class_of(b), Class::Space | Class::LineEnd)
}

// The mark that the byte is, if any. An Option and no TryFrom: there is nothing to say of a byte that is none.
fn mark_of(b: u8) -> Option<Mark>
    ensures { result ≡ mark_of b }
{
    match class_of(b) {
        Class::OpenRound => Some(Mark::OpenRound),
        Class::CloseRound => Some(Mark::CloseRound),
        Class::OpenSquare => Some(Mark::OpenSquare),
        Class::CloseSquare => Some(Mark::CloseSquare),
        Class::OpenCurly => Some(Mark::OpenCurly),
        Class::CloseCurly => Some(Mark::CloseCurly),
        Class::OpenAngle => Some(Mark::OpenAngle),
        Class::CloseAngle => Some(Mark::CloseAngle),
        Class::Colon => Some(Mark::Colon),
        _ => None,
    }
}

// How many blanks stand at the front.
fn count_blanks(text: &[u8]) -> usize
    ensures { result ≡ length (take_while is_blank text.now) }
{
    text.iter().take_while(|&&b| is_blank(b)).count()
}

// The place of the first byte from `at` on that is not blank. The rest is taken as a slice, since `skip` walks over all that stands before it.
fn skip_blanks(text: &[u8], at: usize) -> usize
    ensures { result ≡ at + blanks (drop at text.now) }
{
    at + count_blanks(rest_from(text, at))
}

// The token that comes next from `at` on. Callers keep the place that was reached, go back to it or look twice, so it is a number and no cursor.
pub fn next_token<'a>(text: &'a [u8], at: usize) -> Result<Placed<'a>, TokenFault>
    ensures { seen_token result ≡ token_at text.now at }
{
    let start = skip_blanks(text, at);
    if start >= text.len() {
        return Ok(Placed {
            token: Token::End,
            start,
            after: start,
        });
    }
    if let Some(mark) = mark_of(text[start]) {
        return Ok(Placed {
            token: Token::Mark(mark),
            start,
            after: start + 1,
        });
    }
    if !is_start(text[start]) {
        return Err(TokenFault { at: start });
    }
    let len = word_len(text, start + 1);
    if len >= WORD_LIMIT {
        return Err(TokenFault { at: start });
    }
    let after = start + 1 + len;
    Ok(Placed {
        token: Token::Word(&text[start..after]),
        start,
        after,
    })
}
