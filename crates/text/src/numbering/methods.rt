// What can be asked of a table of names, and how names join it.
ghost use Rattle.std.specs.Prelude.{◌≡◌, ◌<◌, [], length, nat_le, is_ok, OnOk, IfSome};
ghost use Rattle.std.specs.List.{slice_get};
ghost use Rattle.text.specs.Held.{held, JoinedAll};
ghost use Rattle.text.specs.Numbering.{names_limit, number_of, join_one, join_all};

use super::Names;
use crate::lookup::find;
use crate::names::Name;
use lists::{FixedList, ListFull};

impl Names {
    // A table without names.
    pub fn new() -> Self
        ensures { held result ≡ [] }
    {
        Names {
            list: FixedList::new(),
        }
    }

    // The number of names.
    pub fn len(&self) -> usize
        ensures { result ≡ length (held self.now) }
    {
        self.list.len()
    }

    // The names in the order of their numbers.
    pub fn names(&self) -> &[Name]
        ensures { result.now ≡ held self.now }
    {
        self.list.as_slice()
    }

    // The name with the number.
    pub fn get(&self, i: usize) -> Option<Name>
        ensures { result ≡ slice_get (held self.now) i }
    {
        self.names().get(i).copied()
    }

    // The number of the name.
    pub fn number_of(&self, name: &Name) -> Option<usize>
        ensures is { result ≡ number_of (held self.now) name.now }
        ensures below { IfSome result (λ i. i < names_limit) }
    {
        find(self.names(), name)
    }

    // The name joins unless it is there, and is refused if there is no place for it.
    fn join(&mut self, name: &Name) -> Result<(), ListFull>
        ensures fits { is_ok result ≡ nat_le (length (join_one (held self.old) name.now)) names_limit }
        ensures joined { OnOk result (held self.new ≡ join_one (held self.old) name.now) }
    {
        if self.number_of(name).is_none() {
            self.list.push(*name)?;
        }
        Ok(())
    }

    // All names join, or none does if there are too many.
    pub fn join_all(&mut self, names: &[Name]) -> Result<(), ListFull>
        ensures fits { is_ok result ≡ nat_le (length (join_all (held self.old) names.now)) names_limit }
        ensures joined { JoinedAll (is_ok result) self.old self.new names.now }
    {
        let mut joined = *self;
        for name in names {
            joined.join(name)?;
        }
        *self = joined;
        Ok(())
    }
}
