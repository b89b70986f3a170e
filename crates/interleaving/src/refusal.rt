ghost use Rattle.std.specs.Prelude.{◌≡◌, Some};
ghost use Rattle.interleaving.specs.Joining.{number_of};
ghost use Rattle.interleaving.specs.Wording.{complaint};

use std::error::Error;
use std::fmt;

// Why two systems are not joined.
#[derive(Clone, Copy, Debug, PartialEq, Eq)]
pub enum JoinRefusal {
    // The pair would have more than 256 states.
    TooManyStates,
    // A state of the pair might have more than 1,024 moves.
    TooManyMoves,
}

// A refusal is shown in words.
impl fmt::Display for JoinRefusal {
    ghost output = { λ e. Some (complaint e) };

    fn fmt<W: fmt::Write>(&self, f: &mut fmt::Formatter<W>) -> fmt::Result {
        f.write_str(match self {
            JoinRefusal::TooManyStates =>
                "side by side the two systems would have more than 256 states",
            JoinRefusal::TooManyMoves =>
                "a state of the two systems side by side might have more than 1024 moves",
        })
    }
}

impl Error for JoinRefusal {}

// The number under which the refusal is told.
impl From<JoinRefusal> for u8 {
    ghost from_gives = { λ e n. n ≡ number_of e };

    fn from(refusal: JoinRefusal) -> u8 {
        match refusal {
            JoinRefusal::TooManyStates => 21,
            JoinRefusal::TooManyMoves => 22,
        }
    }
}
