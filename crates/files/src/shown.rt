// How the bytes of a file are shown.
ghost use Rattle.std.specs.Prelude.{◌≡◌};
ghost use Rattle.files.specs.Wording.{shown};

// The byte as a character that can be printed; `?` where it has none.
pub fn printable(b: u8) -> char
    ensures { result ≡ shown b }
{
    if (b' '..=b'~').contains(&b) {
        char::from(b)
    } else {
        '?'
    }
}
