// A line of a file.
ghost use Rattle.std.specs.Prelude.{◌≡◌, ◌+◌, if◌then◌else◌, length};

// A line: where it starts, its bytes without the byte that ends it, whether there is such a byte, and the place after it, which every
// line has.
#[derive(Clone, Copy, Debug, PartialEq, Eq)]
pub struct Line<'a> {
    pub start: usize,
    pub text: &'a [u8],
    pub ended: bool,
    pub after: usize,
    ghost reach: { after ≡ start + length text.now + (if ended then 1 else 0) },
}
