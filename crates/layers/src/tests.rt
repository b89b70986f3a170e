use crate::hop::Hop;
use abstraction::abstraction::Abstraction;
use abstraction::sheet::{MAX_RULES, Sheet};
use interleaving::interleaving::Interleaving;
use std::test::Fail;
use systems::limits::MAX_EVENTS;
use systems::system::System;
use tables::table::Table;

// The events of a move of two systems side by side, as a sheet shows them, and none where they are not joined.
fn joined_events<A: System, B: System>(a: &A, b: &B, sheet: Sheet, q: u16, i: usize) -> u64 {
    Interleaving::new(a, b).map_or(0, |both| Abstraction::new(&both, sheet).events(q, i))
}

// An abstraction of an interleaving of an abstraction and a table.
fn over_a_table(table: &Table<'_>, sheet: Sheet) -> u64 {
    let inner = Abstraction::new(table, sheet);
    joined_events(&inner, table, sheet, 0, 0)
}

// The number of states of a system beside itself, and 0 where that is refused.
fn squared<A: System>(a: &A) -> u16 {
    Interleaving::new(a, a).map_or(0, |both| both.states())
}

// The same twice over; a function of its own, since each squaring is of another type.
fn fourth<A: System>(a: &A) -> u16 {
    Interleaving::new(a, a).map_or(0, |both| squared(&both))
}

// And thrice.
fn eighth<A: System>(a: &A) -> u16 {
    Interleaving::new(a, a).map_or(0, |both| fourth(&both))
}

// The sides take turns, and a proposition holds where it holds on either side.
#[test]
fn sides_take_turns(rt: HostRuntime) -> Result<(), Fail> {
    let left = Hop { events: 1 };
    let right = Hop { events: 2 };
    let both = Interleaving::new(&left, &right)?;
    assert_eq!(rt; both.states(), 4);
    assert_eq!(rt; both.initial(), 0);
    assert_eq!(rt; both.move_count(0), 2);
    assert_eq!(rt; both.events(0, 0), 1);
    assert_eq!(rt; both.target(0, 0), 2);
    assert_eq!(rt; both.events(0, 1), 2);
    assert_eq!(rt; both.target(0, 1), 1);
    assert_eq!(rt; both.move_count(2), 1);
    assert_eq!(rt; both.target(2, 0), 3);
    assert_eq!(rt; both.move_count(3), 0);
    assert_eq!(rt; both.holds(0, 0), false);
    assert_eq!(rt; both.holds(1, 0), true);
    assert_eq!(rt; both.holds(2, 0), true);
    Ok(())
}

// A move shows the event 5 for the event 3, and nothing of the event 4.
#[test]
fn rules_show_their_event(rt: HostRuntime) {
    let mut sheet = Sheet::new();
    assert!(rt; sheet.add(3, 5).is_ok());
    assert!(rt; sheet.add(MAX_EVENTS, 5).is_err());
    let hop = Hop {
        events: 1 << 3 | 1 << 4,
    };
    let shown = Abstraction::new(&hop, sheet);
    assert_eq!(rt; shown.events(0, 0), 1 << 5);
    assert_eq!(rt; shown.target(0, 0), 1);
    assert_eq!(rt; shown.move_count(0), 1);
    assert_eq!(rt; shown.holds(1, 0), true);
}

// A sheet takes sixteen rules. The loop only repeats a call, so there are no items to go over.
#[test]
fn sheets_fill_up(rt: HostRuntime) {
    let mut sheet = Sheet::new();
    for _ in 0..MAX_RULES {
        assert!(rt; sheet.add(0, 1).is_ok());
    }
    assert!(rt; sheet.add(0, 1).is_err());
}

// An abstraction of an interleaving of an abstraction and a system.
#[test]
fn layers_stand_on_layers(rt: HostRuntime) {
    let mut inner = Sheet::new();
    assert!(rt; inner.add(3, 5).is_ok());
    let mut outer = Sheet::new();
    assert!(rt; outer.add(5, 7).is_ok());
    let left = Hop { events: 1 << 3 };
    let right = Hop { events: 1 << 5 };
    let shown = Abstraction::new(&left, inner);
    assert_eq!(rt; joined_events(&shown, &right, outer, 0, 0), 1 << 7);
    assert_eq!(rt; joined_events(&shown, &right, outer, 0, 1), 1 << 7);
    assert_eq!(rt; joined_events(&shown, &right, inner, 0, 1), 0);
}

// Sixteen states beside sixteen are joined, and 256 beside 256 are not.
#[test]
fn pairs_have_a_limit(rt: HostRuntime) -> Result<(), Fail> {
    let hop = Hop { events: 1 };
    assert_eq!(rt; fourth(&hop), 16);
    assert_eq!(rt; eighth(&hop), 256);
    let other = Hop { events: 2 };
    let four = Interleaving::new(&hop, &other)?;
    assert_eq!(rt; eighth(&four), 0);
    Ok(())
}
