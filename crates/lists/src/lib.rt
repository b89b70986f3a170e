// Lists of at most so many items, kept in place without a heap. The kit's `arrayvec` is not `Copy`, and these have to be.
#![tactic(auto)]

ghost use Rattle.std.specs.Prelude.{◌≡◌, ◌↔◌, ◌++◌, ◌∷◌, [], length, drop, is_ok, nat_lt, OnOk, OnErr, IfSome, IsNone, ⊤};
ghost use Rattle.lists.specs.Filled.{Filled};

use std::alloc::AllocError;

pub mod facts;

// The items from `start` on; none past the end.
pub fn rest_from<T>(items: &[T], start: usize) -> &[T]
    ensures { result.now ≡ drop start items.now }
{
    items.get(start..).unwrap_or(&[])
}

// A kind of item with a value that stands where there is no item.
pub trait Blank: Copy {
    ghost blank: { Self };

    fn blank() -> Self
        ensures { result ≡ blank };
}

// There is no room for another item.
#[derive(Clone, Copy, Debug, PartialEq, Eq)]
pub struct ListFull;

// At most N items without a heap, in the first `count` places; the places behind them hold blanks. Who writes the fields proves that this
// stays so. A ghost field and no model: a value that holds one with a model is not copied where it is passed by value and used again.
#[derive(Debug, PartialEq, Eq)]
pub struct FixedList<T: Blank, const N: usize> {
    pub places: [T; N],
    pub count: usize,
    pub ghost filled: { Filled N T.Blank.blank count places },
}

// By hand: a derived clone is only known to be of clones of the items, and the check leaves its invariant open.
impl<T: Blank, const N: usize> Clone for FixedList<T, N> {
    ghost is_clone = { λ a b. b ≡ a };

    ghost is_infallible = { λ _. ⊤ };

    fn clone(&self) -> Result<Self, AllocError> {
        Ok(*self)
    }
}

impl<T: Blank, const N: usize> Copy for FixedList<T, N> {}

impl<T: Blank, const N: usize> FixedList<T, N> {
    ghost use Rattle.lists.specs.Items.{items};

    // A list without items.
    pub fn new() -> Self
        ensures { items result ≡ [] }
    {
        FixedList {
            places: [T::blank(); N],
            count: 0,
        }
    }

    // The items, in order.
    pub fn as_slice(&self) -> &[T]
        ensures { result.now ≡ items self.now }
    {
        &self.places[..self.count]
    }

    // The number of items.
    pub fn len(&self) -> usize
        ensures { result ≡ length (items self.now) }
    {
        self.as_slice().len()
    }

    // One item more at the end, unless there are N.
    pub fn push(&mut self, x: T) -> Result<(), ListFull>
        ensures fits { is_ok result ≡ nat_lt (length (items self.old)) N }
        ensures ok { OnOk result (items self.new ≡ items self.old ++ x ∷ []) }
        ensures err { OnErr result (self.new ≡ self.old) }
    {
        if self.count == N {
            return Err(ListFull);
        }
        self.places[self.count] = x;
        self.count += 1;
        Ok(())
    }

    // Takes the last item, if there is one.
    pub fn pop(&mut self) -> Option<T>
        ensures some { IfSome result (λ x. items self.old ≡ items self.new ++ x ∷ []) }
        ensures none { IsNone result ↔ (items self.old ≡ []) }
        ensures kept { IsNone result → self.new ≡ self.old }
    {
        if self.count == 0 {
            return None;
        }
        let place = self.count - 1;
        let last = self.places[place];
        self.places[place] = T::blank();
        self.count = place;
        Some(last)
    }
}
