ghost use Rattle.std.specs.Prelude.{◌≡◌};
ghost use Rattle.systems.specs.Largest.{largest, Largest};

use crate::system::System;

// The largest number of moves that leave a state.
pub fn largest_move_count<S: System>(s: &S) -> usize
    ensures is { result ≡ largest (S.System.meaning s.now).transitions }
    ensures most { Largest (S.System.meaning s.now).transitions result }
{
    (0..s.states()).map(|q| s.move_count(q)).max().unwrap_or(0)
}
