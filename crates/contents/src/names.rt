// The first line of the label file: names, numbered from 0 on.
ghost use Rattle.std.specs.Prelude.{◌≡◌, length, is_some, ◌==◌};
ghost use Rattle.std.specs.Option.{option_map};
ghost use Rattle.text.specs.Held.{held};
ghost use Rattle.text.specs.Numbering.{number_of};
ghost use Rattle.contents.specs.NamesLine.{accepted, item_of, names_of, seen_names, is_called, well_begun};

use layouts::fault::LineFault;
use layouts::labels::{NameItem, read_item};
use text::names::Name;
use text::numbering::Names;

// Whether the number is the one after those of the names.
fn is_next(names: &Names, number: u16) -> bool
    ensures { result ≡ (number == length (held names.now)) }
{
    usize::from(number) == names.len()
}

// Whether the name is among the names.
fn is_listed(names: &Names, name: &Name) -> bool
    ensures { result ≡ is_some (number_of (held names.now) name.now) }
{
    names.number_of(name).is_some()
}

// The names with the entry's name behind them: it has the next number, and a lawful name that is not there yet.
fn accept(found: Option<Names>, item: NameItem<'_>) -> Option<Names>
    ensures { option_map held result ≡ accepted (option_map held found) (item_of item.entry) }
{
    let names = found?;
    if !is_next(&names, item.number) {
        return None;
    }
    let name = Name::new(item.text)?;
    if is_listed(&names, &name) {
        return None;
    }
    let mut longer = names;
    longer.join_all(&[name]).ok()?;
    Some(longer)
}

// Reads the whole line; the names are there where each entry is lawful.
pub fn read_names(line: &[u8]) -> Result<Option<Names>, LineFault>
    ensures { seen_names result ≡ names_of line.now }
{
    let mut found = Some(Names::new());
    let mut next = Some(0);
    // Where an entry starts is known from the one before it, so there is nothing to go over by items.
    while let Some(at) = next {
        let item = read_item(line, at)?;
        found = accept(found, item);
        next = item.next;
    }
    Ok(found)
}

// Whether the name with the number is the word.
fn is_called(names: &Names, number: usize, word: &[u8]) -> bool
    ensures { result ≡ is_called (held names.now) number word.now }
{
    names
        .get(number)
        .zip(Name::new(word))
        .is_some_and(|(name, wanted)| name == wanted)
}

// Whether the names begin with `init` and `deadlock`.
pub fn are_well_begun(names: &Names) -> bool
    ensures { result ≡ well_begun (held names.now) }
{
    is_called(names, 0, b"init") && is_called(names, 1, b"deadlock")
}
