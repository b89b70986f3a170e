// Words: runs of letters, digits, `_` and `.`, and of `:` between two of these.
ghost use Rattle.std.specs.Prelude.{◌≡◌, drop};
ghost use Rattle.text.specs.Words.{is_start, is_inner, leads, goes_on, word_len, starts_word, is_word, same, is_reserved, is_name, WordsByBytes, LongestRuns, SameIsEqual};

use classes::{Class, class_of};

// The most bytes that a word has.
pub const WORD_LIMIT: usize = 24;

// Whether a word may start with the byte.
pub fn is_start(b: u8) -> bool
    ensures { result ≡ is_start b }
{
    matches!(class_of(b), Class::Letter | Class::Underscore)
}

// Whether the byte is one of those inside a word.
pub fn is_inner(b: u8) -> bool
    ensures { result ≡ is_inner b }
{
    matches!(
        class_of(b),
        Class::Letter | Class::Underscore | Class::Digit | Class::Dot
    )
}

// Whether an inner byte stands at `at`.
fn leads(text: &[u8], at: usize) -> bool
    ensures { result ≡ leads (drop at text.now) }
{
    text.get(at).is_some_and(|&b| is_inner(b))
}

// Whether a word that comes up to `at` goes on there. It takes the whole text and a place, since it looks one byte further.
fn goes_on(text: &[u8], at: usize) -> bool
    ensures { result ≡ goes_on (drop at text.now) }
{
    text.get(at)
        .is_some_and(|&b| is_inner(b) || (b == b':' && leads(text, at + 1)))
}

// How many bytes a word that comes up to `at` goes on for.
pub fn word_len(text: &[u8], at: usize) -> usize
    ensures { result ≡ word_len (drop at text.now) }
{
    (at..text.len()).take_while(|&i| goes_on(text, i)).count()
}

// Whether the two have the same bytes in the same order.
pub fn same_bytes(a: &[u8], b: &[u8]) -> bool
    ensures { result ≡ same a.now b.now }
{
    a == b
}

// Whether the first byte is one that a word starts with.
fn starts_word(bytes: &[u8]) -> bool
    ensures { result ≡ starts_word bytes.now }
{
    bytes.first().is_some_and(|&b| is_start(b))
}

// Whether the bytes are a word, the whole of them.
pub fn is_word(bytes: &[u8]) -> bool
    ensures { result ≡ is_word bytes.now }
{
    starts_word(bytes) && word_len(bytes, 0) == bytes.len() && bytes.len() <= WORD_LIMIT
}

// Whether the bytes are a word with a meaning of its own. One test for each: over a table of the words, by `contains` or by `any`, a name takes up to twenty
// times as long here, since a chain of tests ends by the length of the bytes.
pub fn is_reserved(bytes: &[u8]) -> bool
    ensures { result ≡ is_reserved bytes.now }
{
    same_bytes(bytes, b"true")
        || same_bytes(bytes, b"false")
        || same_bytes(bytes, b"FINAL")
        || same_bytes(bytes, b"not")
        || same_bytes(bytes, b"and")
        || same_bytes(bytes, b"or")
        || same_bytes(bytes, b"tau")
        || same_bytes(bytes, b"min")
        || same_bytes(bytes, b"max")
        || same_bytes(bytes, b"E")
        || same_bytes(bytes, b"A")
        || same_bytes(bytes, b"U")
        || same_bytes(bytes, b"EX")
        || same_bytes(bytes, b"AX")
        || same_bytes(bytes, b"EF")
        || same_bytes(bytes, b"AG")
        || same_bytes(bytes, b"i")
}

// Whether the bytes are a word that may name something.
pub fn is_name(bytes: &[u8]) -> bool
    ensures { result ≡ is_name bytes.now }
{
    is_word(bytes) && !is_reserved(bytes)
}

// The bytes are a word exactly if each of them may stand where it does.
pub fn words_by_bytes()
    ensures { WordsByBytes }
{}

// The run that `word_len` counts is as long as can be.
pub fn runs_are_longest()
    ensures { LongestRuns }
{}

// `same_bytes` passes exactly if the two are equal.
pub fn same_is_equal()
    ensures { SameIsEqual }
{}
