// The limits, each reached and passed by one, with tables that are longer.
use crate::desk::*;
use std::test::*;
use text::{Cause, Owner};

#[test]
fn a_text_has_65536_bytes_at_most(rt: HostRuntime) -> Result<(), Fail> {
    let heap = rt.alloc();
    let mut text = repeated(heap, b" ", 65534)?;
    text.extend_from_slice(b"a.")?;
    let mut desk = Desk::large(heap)?;
    assert_eq!(rt; desk.region(&text), Ok(()));
    assert_eq!(rt; desk.counts(), (1, 1, 1, 0));
    assert_eq!(rt; desk.name(0), Some(name_row(Owner::Region, 65534, 1)));
    text.push(b' ')?;
    assert_eq!(rt;
        desk.harbour(&text, b""),
        harbour_fault(Cause::LongText, 0, 1)
    );
    assert_eq!(rt; desk.counts(), (1, 1, 1, 0));
    assert!(rt; desk.is_untouched());
    Ok(())
}

#[test]
fn a_place_may_be_the_end_of_the_longest_text(rt: HostRuntime) -> Result<(), Fail> {
    let heap = rt.alloc();
    let mut text = repeated(heap, b"\n", 65535)?;
    text.push(b'a')?;
    region_refused(&rt, heap, &text, Cause::OutOfPlace, 65536, 65536)
}

#[test]
fn a_text_too_long_is_refused_unread(rt: HostRuntime) -> Result<(), Fail> {
    let heap = rt.alloc();
    let text = repeated(heap, b";", 65537)?;
    let mut desk = Desk::new(heap, 8, 8, 8)?;
    assert_eq!(rt; desk.region(&text), region_fault(Cause::LongText, 0, 1));
    assert_eq!(rt; desk.counts(), (0, 0, 0, 0));
    assert!(rt; desk.is_untouched());
    Ok(())
}

#[test]
fn there_are_512_names_at_most_over_both_texts(rt: HostRuntime) -> Result<(), Fail> {
    let heap = rt.alloc();
    let region = facts(heap, 0, 300)?;
    let mut desk = Desk::large(heap)?;
    assert_eq!(rt; desk.region(&region), Ok(()));
    let mut harbour = facts(heap, 299, 512)?;
    let size = harbour.len();
    harbour.extend_from_slice(b"x.")?;
    assert_eq!(rt;
        desk.harbour(&harbour, &region),
        harbour_fault(Cause::NoNameRow, size, 1)
    );
    assert_eq!(rt; desk.counts(), (1, 300, 300, 0));
    assert!(rt; desk.is_blank());
    Ok(())
}

#[test]
fn a_name_that_has_a_number_needs_no_row(rt: HostRuntime) -> Result<(), Fail> {
    let heap = rt.alloc();
    let region = facts(heap, 0, 300)?;
    let mut desk = Desk::large(heap)?;
    assert_eq!(rt; desk.region(&region), Ok(()));
    let mut harbour = facts(heap, 299, 512)?;
    harbour.extend_from_slice(b"n0 :- n511.")?;
    assert_eq!(rt; desk.harbour(&harbour, &region), Ok(()));
    assert_eq!(rt; desk.counts(), (2, 512, 514, 1));
    assert_eq!(rt; desk.entries.get(0).copied(), Some(1022));
    assert!(rt; desk.is_untouched());
    Ok(())
}

#[test]
fn the_513th_name_of_one_text_is_refused(rt: HostRuntime) -> Result<(), Fail> {
    let heap = rt.alloc();
    let text = facts(heap, 0, 513)?;
    let mut desk = Desk::large(heap)?;
    assert_eq!(rt;
        desk.region(&text),
        region_fault(Cause::NoNameRow, text.len().saturating_sub(5), 1)
    );
    assert_eq!(rt; desk.counts(), (0, 0, 0, 0));
    assert!(rt; desk.is_blank());
    Ok(())
}

#[test]
fn there_are_2048_rules_at_most(rt: HostRuntime) -> Result<(), Fail> {
    let heap = rt.alloc();
    let mut text = repeated(heap, b"a.\n", 2048)?;
    let mut desk = Desk::large(heap)?;
    assert_eq!(rt; desk.region(&text), Ok(()));
    assert_eq!(rt; desk.counts(), (1, 1, 2048, 0));
    assert!(rt; desk.is_untouched());
    text.extend_from_slice(b"a .")?;
    let mut other = Desk::large(heap)?;
    assert_eq!(rt;
        other.region(&text),
        region_fault(Cause::NoRuleRow, 6146, 2049)
    );
    assert_eq!(rt; other.counts(), (0, 0, 0, 0));
    assert!(rt; other.is_blank());
    Ok(())
}

#[test]
fn there_are_8192_entries_at_most(rt: HostRuntime) -> Result<(), Fail> {
    let heap = rt.alloc();
    let region = repeated(heap, b"a:-a,a,a,a,a,a,a,a.", 1024)?;
    let mut desk = Desk::large(heap)?;
    assert_eq!(rt; desk.region(&region), Ok(()));
    assert_eq!(rt; desk.counts(), (1, 1, 1024, 8192));
    assert!(rt; desk.is_untouched());
    assert_eq!(rt;
        desk.harbour(b"a. :-\nnot a.", &region),
        harbour_fault(Cause::NoEntryRow, 10, 2)
    );
    assert_eq!(rt; desk.counts(), (1, 1, 1024, 8192));
    assert!(rt; desk.is_blank());
    Ok(())
}

#[test]
fn one_rule_may_have_all_entries(rt: HostRuntime) -> Result<(), Fail> {
    let heap = rt.alloc();
    let mut text = repeated(heap, b":-a", 1)?;
    text.extend_from_slice(&repeated(heap, b",a", 8191)?)?;
    text.push(b'.')?;
    let mut desk = Desk::large(heap)?;
    assert_eq!(rt; desk.region(&text), Ok(()));
    assert_eq!(rt; desk.counts(), (1, 1, 1, 8192));
    assert_eq!(rt; desk.rule(0), Some(rule_row(65535, 0, 8192)));
    Ok(())
}
