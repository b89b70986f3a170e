// The questions of the transition file, in order.
ghost use Rattle.std.specs.Prelude.{◌≡◌};
ghost use Rattle.text.specs.Held.{held};
ghost use Rattle.transition_file.specs.TransitionPart.{short};
ghost use Rattle.transition_file.specs.Found.{ReadAs};

use crate::first::first_header;
use crate::questions::numbers_fit;
use crate::scans::{join_events, misplaced_line, unknown_state, unlawful_label};
use files::fault::Fault;
use layouts::transitions::Header;
use text::numbering::Names;

// The most bytes of a file.
pub const FILE_LIMIT: usize = 65_535;

// The header, and the names of events with those of the file behind them.
#[derive(Clone, Copy, Debug, PartialEq, Eq)]
pub struct TransitionsRead {
    pub header: Header,
    pub events: Names,
}

// Whether a file is not too long.
pub fn is_short(file: &[u8]) -> bool
    ensures { result ≡ short file.now }
{
    file.len() <= FILE_LIMIT
}

// Puts questions 1 to 7.
pub fn read_transitions(file: &[u8], known: &Names) -> Result<TransitionsRead, Fault>
    ensures { ReadAs file.now (held known.now) result }
{
    if !is_short(file) {
        return Err(Fault::TransitionsTooLong);
    }
    let Some(header) = first_header(file) else {
        return Err(Fault::HeaderLine { start: 0 });
    };
    if !numbers_fit(&header) {
        return Err(Fault::HeaderNumbers);
    }
    if let Some(start) = misplaced_line(file, header.transitions) {
        return Err(Fault::TransitionLine { start });
    }
    if let Some(start) = unlawful_label(file) {
        return Err(Fault::TransitionLabel { start });
    }
    if let Some(start) = unknown_state(file, header.states) {
        return Err(Fault::TransitionStates { start });
    }
    let events = join_events(file, *known).ok_or(Fault::TooManyEvents)?;
    Ok(TransitionsRead { header, events })
}
