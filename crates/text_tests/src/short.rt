// Tables lent short, exactly full and too long, and the order of the faults.
use crate::desk::*;
use std::alloc::Global;
use std::process::Abort;
use std::test::*;
use text::{Cause, Draft, Owner};

#[test]
fn a_full_table_of_names_refuses_a_new_one(rt: HostRuntime) -> Result<(), Fail> {
    let mut desk = Desk::new(rt.alloc(), 2, 8, 8)?;
    assert_eq!(rt;
        desk.region(b"a. b :- not\nc."),
        region_fault(Cause::NoNameRow, 12, 2)
    );
    assert_eq!(rt; desk.counts(), (0, 0, 0, 0));
    assert!(rt; desk.is_blank());
    assert_eq!(rt; desk.region(b"a. b :- not\na."), Ok(()));
    assert_eq!(rt; desk.counts(), (1, 2, 2, 1));
    Ok(())
}

#[test]
fn a_full_table_of_entries_refuses_another(rt: HostRuntime) -> Result<(), Fail> {
    let mut desk = Desk::new(rt.alloc(), 8, 8, 2)?;
    assert_eq!(rt;
        desk.region(b"a :- b, b,\nnot b."),
        region_fault(Cause::NoEntryRow, 15, 2)
    );
    assert_eq!(rt; desk.counts(), (0, 0, 0, 0));
    assert!(rt; desk.is_blank());
    assert_eq!(rt; desk.region(b"a :- b, not b."), Ok(()));
    assert_eq!(rt; desk.counts(), (1, 2, 1, 2));
    Ok(())
}

#[test]
fn a_full_table_of_rules_refuses_another(rt: HostRuntime) -> Result<(), Fail> {
    let mut desk = Desk::new(rt.alloc(), 8, 1, 8)?;
    assert_eq!(rt;
        desk.region(b"a :- b.\nb ."),
        region_fault(Cause::NoRuleRow, 10, 2)
    );
    assert_eq!(rt; desk.counts(), (0, 0, 0, 0));
    assert!(rt; desk.is_blank());
    assert_eq!(rt; desk.region(b"a :- b.\n"), Ok(()));
    assert_eq!(rt; desk.counts(), (1, 2, 1, 1));
    Ok(())
}

#[test]
fn tables_without_rows_take_a_text_without_rules(rt: HostRuntime) -> Result<(), Fail> {
    let heap = rt.alloc();
    let mut desk = Desk::new(heap, 0, 0, 0)?;
    assert_eq!(rt; desk.region(b"a."), region_fault(Cause::NoNameRow, 0, 1));
    assert_eq!(rt; desk.region(b"."), region_fault(Cause::OutOfPlace, 0, 1));
    assert_eq!(rt; desk.region(b"% nothing"), Ok(()));
    assert_eq!(rt; desk.counts(), (1, 0, 0, 0));
    Ok(())
}

// A name out of place is so even where no row is left for it.
#[test]
fn out_of_place_comes_before_no_row(rt: HostRuntime) -> Result<(), Fail> {
    let heap = rt.alloc();
    let mut desk = Desk::new(heap, 1, 8, 0)?;
    assert_eq!(rt; desk.region(b"a b."), region_fault(Cause::OutOfPlace, 2, 1));
    assert_eq!(rt;
        desk.region(b"a :- a a."),
        region_fault(Cause::NoEntryRow, 5, 1)
    );
    let mut ruleless = Desk::new(heap, 1, 0, 1)?;
    assert_eq!(rt;
        ruleless.region(b"a :- ."),
        region_fault(Cause::OutOfPlace, 5, 1)
    );
    assert_eq!(rt;
        ruleless.region(b"a"),
        region_fault(Cause::OutOfPlace, 1, 1)
    );
    assert_eq!(rt;
        ruleless.region(b"a ."),
        region_fault(Cause::NoRuleRow, 2, 1)
    );
    Ok(())
}

#[test]
fn no_row_for_the_name_comes_before_none_for_the_entry(rt: HostRuntime) -> Result<(), Fail> {
    let heap = rt.alloc();
    let mut narrow = Desk::new(heap, 1, 8, 0)?;
    assert_eq!(rt;
        narrow.region(b"a :- b."),
        region_fault(Cause::NoNameRow, 5, 1)
    );
    let mut wide = Desk::new(heap, 2, 8, 0)?;
    assert_eq!(rt;
        wide.region(b"a :- b."),
        region_fault(Cause::NoEntryRow, 5, 1)
    );
    assert_eq!(rt;
        wide.region(b":- not b."),
        region_fault(Cause::NoEntryRow, 7, 1)
    );
    Ok(())
}

#[test]
fn a_third_text_is_refused(rt: HostRuntime) -> Result<(), Fail> {
    let heap = rt.alloc();
    let mut desk = Desk::new(heap, 8, 8, 8)?;
    assert_eq!(rt; desk.region(b"a."), Ok(()));
    assert_eq!(rt; desk.harbour(b"b.", b"a."), Ok(()));
    assert_eq!(rt;
        desk.harbour(b";", b"a."),
        harbour_fault(Cause::ThirdText, 0, 1)
    );
    assert_eq!(rt; desk.counts(), (2, 2, 2, 0));
    assert!(rt; desk.is_untouched());
    let long = repeated(heap, b" ", 65537)?;
    assert_eq!(rt;
        desk.harbour(&long, b"a."),
        harbour_fault(Cause::LongText, 0, 1)
    );
    Ok(())
}

#[test]
fn a_third_text_is_refused_before_a_short_table(rt: HostRuntime) -> Result<(), Fail> {
    let heap = rt.alloc();
    let mut desk = Desk::new(heap, 8, 8, 8)?;
    assert_eq!(rt; desk.region(b"a."), Ok(()));
    assert_eq!(rt; desk.harbour(b"b.", b"a."), Ok(()));
    let mut other = Desk::new(heap, 0, 0, 0)?;
    other.draft = desk.draft;
    assert_eq!(rt;
        other.harbour(b"c.", b"a."),
        harbour_fault(Cause::ThirdText, 0, 1)
    );
    Ok(())
}

// The draft goes on with tables of these lengths: a text is refused for the short table, and nothing is touched.
fn too_short(
    rt: &impl Abort,
    heap: Global,
    draft: Draft,
    names: usize,
    rules: usize,
    entries: usize,
) -> Result<Draft, Fail> {
    let mut desk = Desk::new(heap, names, rules, entries)?;
    desk.draft = draft;
    assert_eq!(rt;
        desk.harbour(b";", b"a :- b."),
        harbour_fault(Cause::ShortTable, 0, 1)
    );
    assert_eq!(rt; desk.counts(), (1, 2, 1, 1));
    assert!(rt; desk.is_unwritten());
    Ok(desk.draft)
}

#[test]
fn a_table_below_its_count_is_refused(rt: HostRuntime) -> Result<(), Fail> {
    let heap = rt.alloc();
    let mut desk = Desk::new(heap, 2, 1, 1)?;
    assert_eq!(rt; desk.region(b"a :- b."), Ok(()));
    let first = too_short(&rt, heap, desk.draft, 1, 1, 1)?;
    let second = too_short(&rt, heap, first, 2, 0, 1)?;
    let _last = too_short(&rt, heap, second, 2, 1, 0)?;
    Ok(())
}

#[test]
fn tables_exactly_as_long_as_their_counts_serve(rt: HostRuntime) -> Result<(), Fail> {
    let mut desk = Desk::new(rt.alloc(), 2, 1, 1)?;
    let region = b"a :- b.";
    assert_eq!(rt; desk.region(region), Ok(()));
    assert_eq!(rt; desk.harbour(b"% nothing more", region), Ok(()));
    assert_eq!(rt; desk.counts(), (2, 2, 1, 1));
    assert_eq!(rt; desk.name(1), Some(name_row(Owner::Region, 5, 1)));
    Ok(())
}
