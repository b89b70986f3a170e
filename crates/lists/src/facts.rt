// What is known of all lists.
ghost use Rattle.lists.specs.Same.{SameItemsSameList};

use crate::Blank;

// Lists with the same items are one value.
pub fn same_items_same_list<T: Blank, const N: usize>()
    ensures { SameItemsSameList T N T.Blank }
{}
