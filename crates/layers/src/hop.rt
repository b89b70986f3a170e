ghost use Rattle.layers.specs.Hops.{hop, hop_lawful};

use systems::sets::has;
use systems::system::System;

// Two states and one move, from 0 to 1, where the proposition 0 holds.
#[derive(Clone, Copy, Debug, PartialEq, Eq)]
pub struct Hop {
    pub events: u64,
}

impl System for Hop {
    ghost meaning = { λ h. hop h.events };

    ghost lawful = { λ h. hop_lawful h.events };

    fn states(&self) -> u16 {
        2
    }

    fn initial(&self) -> u16 {
        0
    }

    fn move_count(&self, q: u16) -> usize {
        usize::from(q == 0)
    }

    fn events(&self, q: u16, i: usize) -> u64 {
        if q == 0 && i == 0 { self.events } else { 0 }
    }

    fn target(&self, q: u16, i: usize) -> u16 {
        u16::from(q == 0 && i == 0)
    }

    fn holds(&self, q: u16, p: u8) -> bool {
        has(u64::from(q == 1), p)
    }
}
