// Names: words that may name something, each kept as three numbers.
ghost use Rattle.std.specs.Prelude.{◌≡◌, ◌≤◌, [], drop, slice_index, Some};
ghost use Rattle.text.specs.Names.{packed, name_of, named, same_name, part_of, byte_of, length_of, text_of, ReadsBack, ShowsWords, TellsWords, TellsNames};

use crate::words::{WORD_LIMIT, is_name};
use lists::{Blank, rest_from};
use std::{array, fmt};

// A word of at most 24 bytes, eight bytes to a number, the first byte lowest, with 0 past the end. Numbers and no array of bytes, so that two
// names compare in three steps.
#[derive(Clone, Copy, Debug, PartialEq, Eq)]
pub struct Name {
    first: u64,
    second: u64,
    third: u64,
}

// The byte at `i`, and 0 past the end.
fn byte_at(bytes: &[u8], i: usize) -> u8
    ensures { result ≡ slice_index bytes.now i }
{
    bytes.get(i).copied().unwrap_or(0)
}

// The eight bytes from `start` on as one number, the first byte lowest.
fn eight_at(bytes: &[u8], start: usize) -> u64
    ensures { result ≡ packed 8 (drop start bytes.now) }
{
    let rest = rest_from(bytes, start);
    u64::from_le_bytes(array::from_fn(|k| byte_at(rest, k)))
}

// No name: all bytes 0, for places that hold no name.
impl Blank for Name {
    ghost blank = { name_of [] };

    fn blank() -> Name {
        Name {
            first: 0,
            second: 0,
            third: 0,
        }
    }
}

// A name is shown as the characters of its bytes, which are asked for by place since they stand in numbers and not in a slice.
impl fmt::Display for Name {
    ghost output = { λ n. Some (text_of n) };

    fn fmt<W: fmt::Write>(&self, f: &mut fmt::Formatter<W>) -> fmt::Result {
        for i in 0..self.len() {
            f.write_char(char::from(self.byte(i)))?;
        }
        Ok(())
    }
}

impl Name {
    // The name of the bytes, if they may be a name. An Option and no TryFrom: there is nothing else to say of other bytes.
    pub fn new(bytes: &[u8]) -> Option<Name>
        ensures { result ≡ named bytes.now }
    {
        if !is_name(bytes) {
            return None;
        }
        Some(Name {
            first: eight_at(bytes, 0),
            second: eight_at(bytes, 8),
            third: eight_at(bytes, 16),
        })
    }

    // Whether the two names are one.
    pub fn same(&self, other: &Name) -> bool
        ensures { result ≡ same_name self.now other.now }
    {
        self == other
    }

    // The number that the byte at `i` stands in.
    fn part(&self, i: usize) -> u64
        ensures { result ≡ part_of self.now i }
    {
        if i < 8 {
            self.first
        } else if i < 16 {
            self.second
        } else if i < WORD_LIMIT {
            self.third
        } else {
            0
        }
    }

    // The byte at `i`, and 0 where the name has none.
    pub fn byte(&self, i: usize) -> u8
        ensures { result ≡ byte_of self.now i }
    {
        self.part(i).to_le_bytes()[i % 8]
    }

    // The number of bytes.
    pub fn len(&self) -> usize
        ensures { result ≡ length_of self.now }
    {
        (0..WORD_LIMIT).take_while(|&i| self.byte(i) != 0).count()
    }
}

// The bytes of a word can be read back from its name.
pub fn names_read_back()
    ensures { ReadsBack }
{}

// The name of a word is shown as that word.
pub fn names_show_words()
    ensures { ShowsWords }
{}

// Two words have one name exactly if they are one word.
pub fn names_tell_words()
    ensures { TellsWords }
{}

// `same` passes exactly if the two names are one.
pub fn same_tells_names()
    ensures { TellsNames }
{}
