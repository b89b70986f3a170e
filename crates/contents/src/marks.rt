// A line of labels: a state, and the numbers listed for it.
ghost use Rattle.std.specs.Prelude.{◌≡◌, Some};
ghost use Rattle.contents.specs.MarksLine.{add_mark, marked_of};

use layouts::fault::LineFault;
use layouts::labels::{read_listed, read_state};

// What has been listed so far: the least number that may come next, and the set of what the numbers stand for.
#[derive(Clone, Copy, Debug, PartialEq, Eq)]
pub struct Listing {
    pub least: usize,
    pub set: u64,
}

// A state, and the set of what its numbers stand for, where they rise and each stands for something.
#[derive(Clone, Copy, Debug, PartialEq, Eq)]
pub struct Marked {
    pub state: u16,
    pub set: Option<u64>,
}

// One number more.
fn add_mark(masks: &[u64], listing: Listing, number: u16) -> Option<Listing>
    ensures { result ≡ add_mark masks.now (Some listing) number }
{
    let place = usize::from(number);
    if place < listing.least {
        return None;
    }
    masks.get(place).map(|mask| Listing {
        least: place + 1,
        set: listing.set | *mask,
    })
}

// Reads the whole line. A number k listed in it stands for what is in `masks` at k.
pub fn read_marks(line: &[u8], masks: &[u64]) -> Result<Marked, LineFault>
    ensures { result ≡ marked_of masks.now line.now }
{
    let state = read_state(line)?;
    let mut listing = Some(Listing { least: 0, set: 0 });
    let mut next = Some(state.after);
    // Where a number starts is known from the one before it, so there is nothing to go over by items.
    while let Some(at) = next {
        let listed = read_listed(line, at)?;
        listing = listing.and_then(|listing| add_mark(masks, listing, listed.number));
        next = listed.next;
    }
    Ok(Marked {
        state: state.value,
        set: listing.map(|listing| listing.set),
    })
}
