// The first line of the label file.
ghost use Rattle.std.specs.Prelude.{◌≡◌};
ghost use Rattle.std.specs.Option.{option_map};
ghost use Rattle.files.specs.Lines.{rows_of};
ghost use Rattle.text.specs.Held.{held};
ghost use Rattle.label_file.specs.LabelPart.{names_row};

use contents::names::{are_well_begun, read_names};
use files::lines::lines_from;
use text::numbering::Names;

// The names of the first line, where it is ended and lawful, and they begin as they must.
pub(crate) fn first_names(file: &[u8]) -> Option<Names>
    ensures { option_map held result ≡ names_row (rows_of file.now) }
{
    let line = lines_from(file, 0).next().filter(|line| line.ended)?;
    let names = read_names(line.text).ok()??;
    are_well_begun(&names).then_some(names)
}
