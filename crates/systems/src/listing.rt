ghost use Rattle.systems.specs.Listing.{Listing};

// A table shows a move exactly for each record that counts, in their order and up to 1,024 for a state; records that join no two
// states and records behind those that it reads change nothing.
pub fn tables_list_their_records()
    ensures { Listing }
{}
