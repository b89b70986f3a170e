// The symbols of formula text: marks, words with a meaning of their own, and names.
#![tactic(auto)]

ghost use Rattle.std.specs.Prelude.{◌≡◌};
ghost use Rattle.symbols.specs.Symbols.{symbol_number, is, symbol_in, reserved_symbol, word_symbol, symbol_at, accept_at, lexes};

use lexer::{Mark, Token, next_token};
use text::names::Name;

#[derive(Clone, Copy, Debug, PartialEq, Eq)]
pub enum Symbol {
    // The text has ended, or what comes next is no token.
    End,
    OpenRound,
    CloseRound,
    OpenSquare,
    CloseSquare,
    OpenCurly,
    CloseCurly,
    OpenAngle,
    CloseAngle,
    Colon,
    True,
    False,
    Final,
    Not,
    And,
    Or,
    Tau,
    Min,
    Max,
    // E
    Exists,
    // A
    All,
    // U
    Until,
    // EX
    ExistsNext,
    // AX
    AllNext,
    // EF
    Eventually,
    // AG
    Always,
    // i, the label of a move without events: no formula has it
    Silent,
    Name(Name),
}

// A symbol, and the place behind it.
#[derive(Clone, Copy, Debug, PartialEq, Eq)]
pub struct Found {
    pub symbol: Symbol,
    pub after: usize,
}

impl Symbol {
    // The number of a mark or a reserved word; all names have one number. With `==` of the derive in its place the check of `is` met its step limit.
    fn number(&self) -> u8
        ensures { result ≡ symbol_number self.now }
    {
        match self {
            Symbol::End => 0,
            Symbol::OpenRound => 1,
            Symbol::CloseRound => 2,
            Symbol::OpenSquare => 3,
            Symbol::CloseSquare => 4,
            Symbol::OpenCurly => 5,
            Symbol::CloseCurly => 6,
            Symbol::OpenAngle => 7,
            Symbol::CloseAngle => 8,
            Symbol::Colon => 9,
            Symbol::True => 10,
            Symbol::False => 11,
            Symbol::Final => 12,
            Symbol::Not => 13,
            Symbol::And => 14,
            Symbol::Or => 15,
            Symbol::Tau => 16,
            Symbol::Min => 17,
            Symbol::Max => 18,
            Symbol::Exists => 19,
            Symbol::All => 20,
            Symbol::Until => 21,
            Symbol::ExistsNext => 22,
            Symbol::AllNext => 23,
            Symbol::Eventually => 24,
            Symbol::Always => 25,
            Symbol::Silent => 26,
            Symbol::Name(_) => 27,
        }
    }

    // Whether the two are one mark or reserved word, or both names.
    pub fn is(&self, other: &Symbol) -> bool
        ensures { result ≡ is self.now other.now }
    {
        self.number() == other.number()
    }
}

// The symbol of a mark.
impl From<Mark> for Symbol {
    ghost use Rattle.symbols.specs.Symbols.{mark_symbol};

    ghost from_gives = { λ m s. s ≡ mark_symbol m };

    fn from(mark: Mark) -> Symbol {
        match mark {
            Mark::OpenRound => Symbol::OpenRound,
            Mark::CloseRound => Symbol::CloseRound,
            Mark::OpenSquare => Symbol::OpenSquare,
            Mark::CloseSquare => Symbol::CloseSquare,
            Mark::OpenCurly => Symbol::OpenCurly,
            Mark::CloseCurly => Symbol::CloseCurly,
            Mark::OpenAngle => Symbol::OpenAngle,
            Mark::CloseAngle => Symbol::CloseAngle,
            Mark::Colon => Symbol::Colon,
        }
    }
}

// The reserved words, but for `i`.
const RESERVED: [(&[u8], Symbol); 16] = [
    (b"true", Symbol::True),
    (b"false", Symbol::False),
    (b"FINAL", Symbol::Final),
    (b"not", Symbol::Not),
    (b"and", Symbol::And),
    (b"or", Symbol::Or),
    (b"tau", Symbol::Tau),
    (b"min", Symbol::Min),
    (b"max", Symbol::Max),
    (b"E", Symbol::Exists),
    (b"A", Symbol::All),
    (b"U", Symbol::Until),
    (b"EX", Symbol::ExistsNext),
    (b"AX", Symbol::AllNext),
    (b"EF", Symbol::Eventually),
    (b"AG", Symbol::Always),
];

// The symbol of the first entry that is spelled so, else that of `i`.
fn symbol_in(entries: &[(&[u8], Symbol)], word: &[u8]) -> Symbol
    ensures { result ≡ symbol_in entries.now word.now }
{
    for &(spelling, symbol) in entries {
        if spelling == word {
            return symbol;
        }
    }
    Symbol::Silent
}

// What a reserved word means.
fn reserved_symbol(word: &[u8]) -> Symbol
    ensures { result ≡ reserved_symbol word.now }
{
    symbol_in(&RESERVED, word)
}

// The symbol of a word: a name, or what a reserved word means.
fn word_symbol(word: &[u8]) -> Symbol
    ensures { result ≡ word_symbol word.now }
{
    match Name::new(word) {
        Some(name) => Symbol::Name(name),
        None => reserved_symbol(word),
    }
}

// The symbol that comes next from `at` on.
pub fn next_symbol(text: &[u8], at: usize) -> Found
    ensures { result ≡ symbol_at text.now at }
{
    match next_token(text, at) {
        Ok(placed) => Found {
            symbol: match placed.token {
                Token::End => Symbol::End,
                Token::Mark(mark) => Symbol::from(mark),
                Token::Word(word) => word_symbol(word),
            },
            after: placed.after,
        },
        Err(fault) => Found {
            symbol: Symbol::End,
            after: fault.at,
        },
    }
}

// The place behind the symbol, where it comes next.
pub fn accept(text: &[u8], at: usize, wanted: Symbol) -> Option<usize>
    ensures { result ≡ accept_at text.now at wanted }
{
    let next = next_symbol(text, at);
    next.symbol.is(&wanted).then_some(next.after)
}

// Whether the text is tokens up to its end. Each token begins where the one before ended, so the loop goes from place to place.
pub fn is_lexed(text: &[u8]) -> bool
    ensures { result ≡ lexes text.now }
{
    let mut at = 0;
    while let Ok(placed) = next_token(text, at) {
        if let Token::End = placed.token {
            return true;
        }
        at = placed.after;
    }
    false
}
