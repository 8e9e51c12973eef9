// The rows that reading writes.
use crate::desk::*;
use std::test::*;
use text::{Cause, Owner};

#[test]
fn entries_stand_as_written(rt: HostRuntime) -> Result<(), Fail> {
    let mut desk = Desk::new(rt.alloc(), 8, 8, 8)?;
    assert_eq!(rt; desk.region(b"a :- not b, b, b. :- a, not a."), Ok(()));
    assert_eq!(rt; desk.counts(), (1, 2, 2, 5));
    assert_eq!(rt; desk.entries.get(..5), Some([3u16, 2, 2, 0, 1].as_slice()));
    assert!(rt; desk.is_untouched());
    Ok(())
}

#[test]
fn names_are_numbered_in_the_order_of_first_use(rt: HostRuntime) -> Result<(), Fail> {
    let mut desk = Desk::new(rt.alloc(), 8, 8, 8)?;
    assert_eq!(rt; desk.region(b"\n b2 :- not a, b2. c :- a."), Ok(()));
    assert_eq!(rt; desk.counts(), (1, 3, 2, 3));
    assert_eq!(rt; desk.name(0), Some(name_row(Owner::Region, 2, 2)));
    assert_eq!(rt; desk.name(1), Some(name_row(Owner::Region, 12, 1)));
    assert_eq!(rt; desk.name(2), Some(name_row(Owner::Region, 19, 1)));
    Ok(())
}

#[test]
fn a_run_begins_where_the_last_ended(rt: HostRuntime) -> Result<(), Fail> {
    let mut desk = Desk::new(rt.alloc(), 8, 8, 8)?;
    assert_eq!(rt; desk.region(b"a. a :- b, c. b. :- c. c."), Ok(()));
    assert_eq!(rt; desk.rule(0), Some(rule_row(0, 0, 0)));
    assert_eq!(rt; desk.rule(1), Some(rule_row(0, 0, 2)));
    assert_eq!(rt; desk.rule(2), Some(rule_row(1, 2, 0)));
    assert_eq!(rt; desk.rule(3), Some(rule_row(65535, 2, 1)));
    assert_eq!(rt; desk.rule(4), Some(rule_row(2, 3, 0)));
    assert_eq!(rt; desk.counts(), (1, 3, 5, 3));
    assert!(rt; desk.is_untouched());
    Ok(())
}

#[test]
fn the_harbour_goes_on_with_the_regions_numbers(rt: HostRuntime) -> Result<(), Fail> {
    let mut desk = Desk::new(rt.alloc(), 8, 8, 8)?;
    let region = b"a :- b.";
    assert_eq!(rt; desk.region(region), Ok(()));
    assert_eq!(rt; desk.harbour(b"b :- not c. a.", region), Ok(()));
    assert_eq!(rt; desk.counts(), (2, 3, 3, 2));
    assert_eq!(rt; desk.name(1), Some(name_row(Owner::Region, 5, 1)));
    assert_eq!(rt; desk.name(2), Some(name_row(Owner::Harbour, 9, 1)));
    assert_eq!(rt; desk.rule(1), Some(rule_row(1, 1, 1)));
    assert_eq!(rt; desk.rule(2), Some(rule_row(0, 2, 0)));
    assert_eq!(rt; desk.entries.get(1).copied(), Some(5));
    assert!(rt; desk.is_untouched());
    Ok(())
}

#[test]
fn a_refused_harbour_leaves_the_region(rt: HostRuntime) -> Result<(), Fail> {
    let mut desk = Desk::new(rt.alloc(), 8, 8, 8)?;
    let region = b"a :- b.";
    assert_eq!(rt; desk.region(region), Ok(()));
    assert_eq!(rt;
        desk.harbour(b"c :- d.\nd :- not c, e. f g.", region),
        harbour_fault(Cause::OutOfPlace, 25, 2)
    );
    assert_eq!(rt; desk.counts(), (1, 2, 1, 1));
    assert!(rt; desk.is_blank());
    assert_eq!(rt; desk.name(0), Some(name_row(Owner::Region, 0, 1)));
    assert_eq!(rt; desk.name(1), Some(name_row(Owner::Region, 5, 1)));
    assert_eq!(rt; desk.rule(0), Some(rule_row(0, 0, 1)));
    assert_eq!(rt; desk.entries.get(0).copied(), Some(2));
    Ok(())
}

#[test]
fn after_a_fault_another_text_is_read(rt: HostRuntime) -> Result<(), Fail> {
    let mut desk = Desk::new(rt.alloc(), 8, 8, 8)?;
    assert_eq!(rt;
        desk.region(b"x :- y"),
        region_fault(Cause::OutOfPlace, 6, 1)
    );
    let region = b"a.";
    assert_eq!(rt; desk.region(region), Ok(()));
    assert_eq!(rt;
        desk.harbour(b"b ;", region),
        harbour_fault(Cause::NoWord, 2, 1)
    );
    assert_eq!(rt; desk.harbour(b"b :- a.", region), Ok(()));
    assert_eq!(rt; desk.counts(), (2, 2, 2, 1));
    assert_eq!(rt; desk.name(1), Some(name_row(Owner::Harbour, 0, 1)));
    Ok(())
}
