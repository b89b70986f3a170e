// The records that the transition file fills.
ghost use Rattle.std.specs.Prelude.{◌≡◌, ◌<◌, map, Some};
ghost use Rattle.text.specs.Held.{held};
ghost use Rattle.text.specs.Numbering.{names_limit};
ghost use Rattle.transition_file.specs.Sets.{single, bit_in, set_in};
ghost use Rattle.transition_file.specs.TransitionPart.{arrows_of, names_in};
ghost use Rattle.transition_file.specs.Records.{record_in, line_record, written};

use crate::first::body_lines;
use contents::label::reading::read_label;
use layouts::transitions::read_transition;
use systems::transition::Transition;
use text::names::Name;
use text::numbering::Names;

// The set of a number; the place of a name, where rules of a sheet have a `u8` of their own.
fn bit(number: usize) -> u64
    requires { number < names_limit }
    ensures { result ≡ single (Some number) }
{
    1 << number
}

// The set of the name's number; none where it has no number.
pub fn bit_of(known: &Names, name: &Name) -> u64
    ensures { result ≡ bit_in (held known.now) name.now }
{
    known.number_of(name).map_or(0, bit)
}

// The set of the names' numbers.
fn set_of(known: &Names, names: &[Name]) -> u64
    ensures { result ≡ set_in (held known.now) names.now }
{
    names.iter().fold(0, |set, name| set | bit_of(known, name))
}

// The set of the names in a label; none where the label is not lawful.
fn label_set(known: &Names, label: &[u8]) -> u64
    ensures { result ≡ set_in (held known.now) (names_in label.now) }
{
    read_label(label).map_or(0, |label| set_of(known, label.names()))
}

// The record of a line's transition.
fn record_of(known: &Names, line: &[u8]) -> Transition
    ensures { result ≡ line_record (held known.now) line.now }
{
    read_transition(line).map_or(
        Transition::default(),
        |t| Transition {
            source: t.source,
            events: label_set(known, t.label),
            target: t.target,
        },
    )
}

// Writes the file's transitions to the first places, as many as there are; the other places stay.
pub fn write_transitions(file: &[u8], known: &Names, records: &mut [Transition])
    ensures { records.new ≡ written (map (record_in (held known.now)) (arrows_of file.now)) records.old }
{
    let mut lines = body_lines(file);
    // No invariant can name what `zip` walks over behind `iter_mut`, so the lines are taken one by one.
    for record in records.iter_mut() {
        let Some(line) = lines.next() else {
            return;
        };
        *record = record_of(known, line.text);
    }
}
