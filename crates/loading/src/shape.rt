// What a load found out about a table, and the load itself, the only maker of it.
ghost use Rattle.std.specs.Prelude.{◌≡◌, ◌<◌, ◌≤◌};
ghost use Rattle.systems.specs.Limits.{max_states};

use layouts::transitions::Header;

mod loading;

pub use loading::load;

// How many states a table has, which is the initial one, and how many records hold its transitions. Only a load makes one.
#[derive(Clone, Copy, Debug, PartialEq, Eq)]
pub struct Shape {
    states: u16,
    initial: u16,
    moves: usize,
    ghost few: { states ≤ max_states },
    ghost starts: { initial < states },
}

impl Shape {
    // The shape of a table with the numbers of the header.
    fn of(header: &Header) -> Shape
        requires few { header.now.states ≤ max_states }
        requires starts { header.now.initial < header.now.states }
        ensures states { result.states ≡ header.now.states }
        ensures initial { result.initial ≡ header.now.initial }
        ensures moves { result.moves ≡ header.now.transitions }
    {
        Shape {
            states: header.states,
            initial: header.initial,
            moves: usize::from(header.transitions),
        }
    }

    // The number of states, 1 to 256.
    pub fn states(&self) -> u16
        ensures { result ≡ self.now.states }
    {
        self.states
    }

    // The initial state.
    pub fn initial(&self) -> u16
        ensures { result ≡ self.now.initial }
    {
        self.initial
    }

    // The number of records that the load wrote.
    pub fn moves(&self) -> usize
        ensures { result ≡ self.now.moves }
    {
        self.moves
    }
}
