// The words: what is one, what parts them, and the faults 20 and 21.
use crate::desk::*;
use std::test::*;
use text::{Cause, Owner};

#[test]
fn a_byte_that_starts_no_word(rt: HostRuntime) -> Result<(), Fail> {
    let heap = rt.alloc();
    region_refused(&rt, heap, b"a :- b;", Cause::NoWord, 6, 1)?;
    region_refused(&rt, heap, b"a.\nB.", Cause::NoWord, 3, 2)?;
    region_refused(&rt, heap, b"aB.", Cause::NoWord, 1, 1)?;
    region_refused(&rt, heap, b"_a.", Cause::NoWord, 0, 1)?;
    region_refused(&rt, heap, b"1a.", Cause::NoWord, 0, 1)?;
    region_refused(&rt, heap, b"a.\n\n\x00", Cause::NoWord, 4, 3)?;
    region_refused(&rt, heap, b"a.\xff", Cause::NoWord, 2, 1)
}

#[test]
fn a_colon_is_a_word_only_with_a_hyphen_after_it(rt: HostRuntime) -> Result<(), Fail> {
    let heap = rt.alloc();
    region_refused(&rt, heap, b"a : - b.", Cause::NoWord, 2, 1)?;
    region_refused(&rt, heap, b"a :", Cause::NoWord, 2, 1)?;
    region_refused(&rt, heap, b"a - b.", Cause::NoWord, 2, 1)?;
    region_counts(&rt, heap, b"a:-b.", 2, 1, 1)
}

#[test]
fn a_name_of_32_bytes_is_read(rt: HostRuntime) -> Result<(), Fail> {
    let heap = rt.alloc();
    let mut text = repeated(heap, b"a", 32)?;
    text.push(b'.')?;
    let mut desk = Desk::new(heap, 8, 8, 8)?;
    assert_eq!(rt; desk.region(&text), Ok(()));
    assert_eq!(rt; desk.counts(), (1, 1, 1, 0));
    assert_eq!(rt; desk.name(0), Some(name_row(Owner::Region, 0, 32)));
    Ok(())
}

#[test]
fn a_name_of_33_bytes_is_too_long(rt: HostRuntime) -> Result<(), Fail> {
    let heap = rt.alloc();
    let mut text = repeated(heap, b"a", 33)?;
    region_refused(&rt, heap, &text, Cause::LongName, 0, 1)?;
    text.push(b'.')?;
    region_refused(&rt, heap, &text, Cause::LongName, 0, 1)?;
    let mut body = repeated(heap, b"b :-\nnot ", 1)?;
    body.extend_from_slice(&text)?;
    region_refused(&rt, heap, &body, Cause::LongName, 9, 2)
}

// The word is no word, so that it is not asked whether it is out of place.
#[test]
fn a_name_too_long_is_so_wherever_it_stands(rt: HostRuntime) -> Result<(), Fail> {
    let heap = rt.alloc();
    let mut text = repeated(heap, b"b ", 1)?;
    let long = repeated(heap, b"not", 11)?;
    text.extend_from_slice(&long)?;
    region_refused(&rt, heap, &text, Cause::LongName, 2, 1)
}

#[test]
fn not_is_a_mark_and_nota_a_name(rt: HostRuntime) -> Result<(), Fail> {
    let heap = rt.alloc();
    region_refused(&rt, heap, b"not.", Cause::OutOfPlace, 0, 1)?;
    region_refused(&rt, heap, b"not :- a.", Cause::OutOfPlace, 0, 1)?;
    region_counts(&rt, heap, b"nota.", 1, 1, 0)?;
    region_counts(&rt, heap, b"nota :- not nota, no, not_.", 3, 1, 3)
}

#[test]
fn blanks_part_words(rt: HostRuntime) -> Result<(), Fail> {
    let heap = rt.alloc();
    region_counts(&rt, heap, b"\ta\t:-\r\n not\nb ,c\t.\r", 3, 1, 2)?;
    region_counts(&rt, heap, b"a:-notb,c.", 3, 1, 2)?;
    region_refused(&rt, heap, b"a\x0b.", Cause::NoWord, 1, 1)
}

// A carriage return parts words and ends no line.
#[test]
fn lines_end_at_line_feeds(rt: HostRuntime) -> Result<(), Fail> {
    let heap = rt.alloc();
    region_counts(&rt, heap, b"a.\r\nb :- a.\r\n", 2, 2, 1)?;
    region_refused(&rt, heap, b"a.\r\nb.\r\n;", Cause::NoWord, 8, 3)?;
    region_refused(&rt, heap, b"a.\r;", Cause::NoWord, 3, 1)
}

#[test]
fn a_comment_runs_to_the_line_feed_or_the_end(rt: HostRuntime) -> Result<(), Fail> {
    let heap = rt.alloc();
    region_counts(&rt, heap, b"a. % so; IT goes: \xff % on", 1, 1, 0)?;
    region_counts(&rt, heap, b"%", 0, 0, 0)?;
    region_counts(&rt, heap, b"a% here\n.", 1, 1, 0)?;
    region_refused(&rt, heap, b"% x\r;\n;", Cause::NoWord, 6, 2)
}

#[test]
fn a_text_may_say_nothing(rt: HostRuntime) -> Result<(), Fail> {
    let heap = rt.alloc();
    region_counts(&rt, heap, b"", 0, 0, 0)?;
    region_counts(&rt, heap, b" \t\r\n", 0, 0, 0)
}
