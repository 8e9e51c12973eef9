// Finding a statement by its name, and the name of a statement.
use crate::desk::*;
use std::process::Abort;
use std::test::*;
use text::{NameRow, Texts, find, name_of};

const REGION: &[u8; 8] = b"ab_cd.ab";

const HARBOUR: &[u8; 4] = b"cdab";

fn texts() -> Texts<'static> {
    Texts {
        region: REGION,
        harbour: HARBOUR,
    }
}

const fn row(text: u8, first: u16, size: u16) -> NameRow {
    NameRow { text, first, size }
}

// The row names nothing, and so is not found.
fn names_nothing(rt: &impl Abort, row: NameRow) -> Result<(), Fail> {
    assert_eq!(rt; name_of(0, 1, &[row], texts()), None);
    assert_eq!(rt; find(b"ab", 1, &[row], texts()), None);
    assert_eq!(rt; find(b"", 1, &[row], texts()), None);
    Ok(())
}

#[test]
fn a_row_names_a_part_of_its_own_text(rt: HostRuntime) -> Result<(), Fail> {
    let cases = [
        (row(0, 0, 2), b"ab".as_slice()),
        (row(1, 0, 2), b"cd".as_slice()),
        (row(0, 6, 2), b"ab".as_slice()),
        (row(1, 0, 4), b"cdab".as_slice()),
    ];
    for (row, name) in cases {
        assert_eq!(rt; name_of(0, 1, &[row], texts()), Some(name));
    }
    Ok(())
}

#[test]
fn a_row_outside_its_text_names_nothing(rt: HostRuntime) -> Result<(), Fail> {
    names_nothing(&rt, row(0, 7, 2))?;
    names_nothing(&rt, row(1, 3, 2))?;
    names_nothing(&rt, row(1, 6, 2))?;
    names_nothing(&rt, row(0, 65535, 65535))
}

#[test]
fn a_row_of_length_0_or_of_no_text_names_nothing(rt: HostRuntime) -> Result<(), Fail> {
    names_nothing(&rt, row(0, 0, 0))?;
    names_nothing(&rt, row(1, 4, 0))?;
    names_nothing(&rt, row(2, 0, 2))?;
    names_nothing(&rt, row(255, 2, 2))
}

#[test]
fn the_lowest_row_counts(rt: HostRuntime) -> Result<(), Fail> {
    let rows = [row(2, 0, 2), row(1, 2, 2), row(0, 0, 2), row(0, 6, 2)];
    assert_eq!(rt; find(b"ab", 4, &rows, texts()), Some(1));
    assert_eq!(rt; find(b"a", 4, &rows, texts()), None);
    assert_eq!(rt; find(b"ab_", 4, &rows, texts()), None);
    Ok(())
}

#[test]
fn rows_past_the_count_are_not_looked_at(rt: HostRuntime) -> Result<(), Fail> {
    let rows = [row(0, 3, 2), row(0, 0, 2)];
    assert_eq!(rt; find(b"ab", 1, &rows, texts()), None);
    assert_eq!(rt; find(b"ab", 2, &rows, texts()), Some(1));
    assert_eq!(rt; find(b"ab", 9, &rows, texts()), Some(1));
    assert_eq!(rt; find(b"ab", 0, &rows, texts()), None);
    assert_eq!(rt; name_of(1, 1, &rows, texts()), None);
    assert_eq!(rt; name_of(2, 9, &rows, texts()), None);
    assert_eq!(rt; name_of(1, 2, &rows, texts()), Some(b"ab".as_slice()));
    Ok(())
}

// A name used in the region and again in the harbour has one number; one first used in the harbour comes from its text.
#[test]
fn what_was_read_is_found_and_named(rt: HostRuntime) -> Result<(), Fail> {
    let mut desk = Desk::new(rt.alloc(), 8, 8, 8)?;
    let region = b"a_in :- b1.";
    let harbour = b"b1 :- not b22.";
    assert_eq!(rt; desk.region(region), Ok(()));
    assert_eq!(rt; desk.harbour(harbour, region), Ok(()));
    let texts = Texts { region, harbour };
    let count = desk.draft.names();
    assert_eq!(rt; count, 3);
    assert_eq!(rt; find(b"b1", count, &desk.names, texts), Some(1));
    assert_eq!(rt; find(b"b22", count, &desk.names, texts), Some(2));
    assert_eq!(rt; find(b"b2", count, &desk.names, texts), None);
    assert_eq!(rt;
        name_of(2, count, &desk.names, texts),
        Some(b"b22".as_slice())
    );
    Ok(())
}
