ghost use Rattle.std.specs.Prelude.{◌≡◌};
ghost use Rattle.systems.specs.Meaning.{Meaning, Lawful, move_count, events_at, target_at, holds};

// What can be asked of a system, about every number: past the last state there are no moves and no propositions.
pub trait System {
    // What the system means; every answer below follows from it.
    ghost meaning: { Self → Meaning };

    // The law that the meaning keeps.
    ghost lawful: { (s : Self) → Lawful (meaning s) };

    // The number of states.
    fn states(&self) -> u16
        ensures { result ≡ (meaning self.now).transitions.states };

    // The state it starts in.
    fn initial(&self) -> u16
        ensures { result ≡ (meaning self.now).transitions.initial };

    // How many moves leave the state `q`.
    fn move_count(&self, q: u16) -> usize
        ensures { result ≡ move_count (meaning self.now).transitions q };

    // The events of the move `i` of the state `q`, and none where there is no such move.
    fn events(&self, q: u16, i: usize) -> u64
        ensures { result ≡ events_at (meaning self.now).transitions q i };

    // Where the move `i` of the state `q` leads, and the initial state where there is no such move.
    fn target(&self, q: u16, i: usize) -> u16
        ensures { result ≡ target_at (meaning self.now).transitions q i };

    // Whether the proposition `p` holds in the state `q`.
    fn holds(&self, q: u16, p: u8) -> bool
        ensures { result ≡ holds (meaning self.now) q p };
}
