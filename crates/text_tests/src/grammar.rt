// The rules: fault 22, at the word that is out of place or at the end.
use crate::desk::*;
use std::test::*;
use text::Cause;

#[test]
fn a_rule_begins_with_a_name_or_an_arrow(rt: HostRuntime) -> Result<(), Fail> {
    let heap = rt.alloc();
    region_refused(&rt, heap, b".", Cause::OutOfPlace, 0, 1)?;
    region_refused(&rt, heap, b"a..", Cause::OutOfPlace, 2, 1)?;
    region_refused(&rt, heap, b",a.", Cause::OutOfPlace, 0, 1)?;
    region_refused(&rt, heap, b"a.\nnot b.", Cause::OutOfPlace, 3, 2)
}

#[test]
fn after_the_head_comes_an_arrow_or_the_point(rt: HostRuntime) -> Result<(), Fail> {
    let heap = rt.alloc();
    region_refused(&rt, heap, b"a b.", Cause::OutOfPlace, 2, 1)?;
    region_refused(&rt, heap, b"a, b.", Cause::OutOfPlace, 1, 1)?;
    region_refused(&rt, heap, b"a not b.", Cause::OutOfPlace, 2, 1)
}

#[test]
fn a_body_has_an_entry(rt: HostRuntime) -> Result<(), Fail> {
    let heap = rt.alloc();
    region_refused(&rt, heap, b":- .", Cause::OutOfPlace, 3, 1)?;
    region_refused(&rt, heap, b"a :- .", Cause::OutOfPlace, 5, 1)?;
    region_refused(&rt, heap, b"a :- :- b.", Cause::OutOfPlace, 5, 1)?;
    region_refused(&rt, heap, b"a :- , b.", Cause::OutOfPlace, 5, 1)?;
    region_refused(&rt, heap, b"a :- b, .", Cause::OutOfPlace, 8, 1)
}

#[test]
fn after_not_comes_a_name(rt: HostRuntime) -> Result<(), Fail> {
    let heap = rt.alloc();
    region_refused(&rt, heap, b"a :- not.", Cause::OutOfPlace, 8, 1)?;
    region_refused(&rt, heap, b"a :- not not b.", Cause::OutOfPlace, 9, 1)?;
    region_refused(&rt, heap, b"a :- not, b.", Cause::OutOfPlace, 8, 1)
}

#[test]
fn after_an_entry_comes_a_comma_or_the_point(rt: HostRuntime) -> Result<(), Fail> {
    let heap = rt.alloc();
    region_refused(&rt, heap, b"a :- b c.", Cause::OutOfPlace, 7, 1)?;
    region_refused(&rt, heap, b"a :- b not c.", Cause::OutOfPlace, 7, 1)?;
    region_refused(&rt, heap, b"a :- b :- c.", Cause::OutOfPlace, 7, 1)
}

#[test]
fn a_text_ends_between_rules(rt: HostRuntime) -> Result<(), Fail> {
    let heap = rt.alloc();
    region_refused(&rt, heap, b"a", Cause::OutOfPlace, 1, 1)?;
    region_refused(&rt, heap, b"a :-", Cause::OutOfPlace, 4, 1)?;
    region_refused(&rt, heap, b":-", Cause::OutOfPlace, 2, 1)?;
    region_refused(&rt, heap, b"a :- not", Cause::OutOfPlace, 8, 1)?;
    region_refused(&rt, heap, b"a :- b", Cause::OutOfPlace, 6, 1)?;
    region_refused(&rt, heap, b"a :- b,", Cause::OutOfPlace, 7, 1)?;
    region_refused(&rt, heap, b"a. b \n% c\n", Cause::OutOfPlace, 10, 3)
}

#[test]
fn the_first_fault_by_place_counts(rt: HostRuntime) -> Result<(), Fail> {
    let heap = rt.alloc();
    region_refused(&rt, heap, b"a b ;", Cause::OutOfPlace, 2, 1)?;
    region_refused(&rt, heap, b"a ; b c", Cause::NoWord, 2, 1)
}
