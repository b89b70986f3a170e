// One look-up by name for all sorts of records.
ghost use Rattle.std.specs.Prelude.{◌≡◌};
ghost use Rattle.text.specs.Lookup.{latest, FindsHighest};
ghost use Rattle.text.specs.Names.{same_name};
ghost use Rattle.text.specs.declared.names.Name.{Name};

use crate::names::Name;

// A record that is called by a name.
pub trait Named {
    ghost called: { Self → Name };

    fn is_called(&self, name: &Name) -> bool
        ensures { result ≡ same_name (called self.now) name.now };
}

// A name is called by itself.
impl Named for Name {
    ghost called = { λ n. n };

    fn is_called(&self, name: &Name) -> bool {
        self == name
    }
}

// The index of the last record that is called so.
pub fn find<T: Named>(records: &[T], name: &Name) -> Option<usize>
    ensures { result ≡ latest (λ x. same_name (T.Named.called x) name.now) records.now }
{
    records.iter().rposition(|record| record.is_called(name))
}

// What `find` finds, for records of any one type: the highest index that passes, or nothing exactly if none does.
pub fn find_is_highest<T: Named>()
    ensures { FindsHighest T }
{}
