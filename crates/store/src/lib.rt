// A last-in first-out store of records over places that are lent to it.
#![tactic(auto)]

ghost use Rattle.std.specs.Prelude.{◌≡◌, ◌<◌, ◌≤◌, [], length, Some, is_ok};
ghost use Rattle.store.specs.Stored.{Put, Taken, LastInFirstOut};

// Every place holds a record.
#[derive(Clone, Copy, Debug, PartialEq, Eq)]
pub struct StoreFull;

// The first `count` places hold the records, the newest last. The places are lent, so their count stands beside them.
#[derive(Drop)]
pub struct Store<'a, T: Copy> {
    places: &'a mut [T],
    count: usize,
    ghost within: { count ≤ length places.now },
}

impl<'a, T: Copy> Store<'a, T> {
    ghost use Rattle.store.specs.Records.{records, PushedTo};

    // A store that holds nothing, over all of the places.
    pub fn new(places: &'a mut [T]) -> Self
        ensures none { records result ≡ [] }
        ensures lent { result.places.now ≡ places.old }
    {
        Store { places, count: 0 }
    }

    // Puts the record into the first free place.
    fn put(&mut self, x: T)
        requires { self.old.count < length self.old.places.now }
        ensures { Put x (records self.old) (records self.new) self.old.places.now self.new.places.now }
    {
        self.places[self.count] = x;
        self.count += 1;
    }

    // Puts the record on top, unless every place is taken.
    pub fn push(&mut self, x: T) -> Result<(), StoreFull>
        ensures { PushedTo (is_ok result) x self.old self.new }
    {
        if self.count == self.places.len() {
            return Err(StoreFull);
        }
        self.put(x);
        Ok(())
    }

    // Takes the newest of at least one record.
    fn pop(&mut self) -> T
        requires { 0 < self.old.count }
        ensures newest { Taken (Some result) (records self.old) (records self.new) }
        ensures kept { self.new.places.now ≡ self.old.places.now }
    {
        self.count -= 1;
        self.places[self.count]
    }

    // Takes the newest record, if there is one.
    pub fn take(&mut self) -> Option<T>
        ensures newest { Taken result (records self.old) (records self.new) }
        ensures kept { self.new.places.now ≡ self.old.places.now }
    {
        if self.count == 0 {
            None
        } else {
            Some(self.pop())
        }
    }

    // The records, the newest last.
    pub fn held(&self) -> &[T]
        ensures { result.now ≡ records self.now }
    {
        &self.places[..self.count]
    }

    // How many records are held.
    pub fn count(&self) -> usize
        ensures { result ≡ length (records self.now) }
    {
        self.held().len()
    }
}

// A record that was pushed is the one that the next take gives.
pub fn last_in_first_out<T: Copy>()
    ensures { LastInFirstOut T }
{}
