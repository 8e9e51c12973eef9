// Each refusal, and which wins where several causes are there.
use sheet::{Sheet, SheetRefusal, Word};
use sources::Listed;
use std::test::Fail;

#[test]
fn of_begin(rt: HostRuntime) -> Result<(), Fail> {
    let mut sheet = Sheet::new(Listed::new(2, 1, &[1, 1])?);
    assert_eq!(rt;
        sheet.begin(&[2]),
        Err(SheetRefusal::Length),
        "a byte over 1 too"
    );
    assert_eq!(rt; sheet.begin(&[0, 2]), Err(SheetRefusal::Mark));
    sheet.begin(&[0, 1])?;
    assert_eq!(rt;
        sheet.begin(&[1]),
        Err(SheetRefusal::Length),
        "begun already too"
    );
    assert_eq!(rt;
        sheet.begin(&[0, 2]),
        Err(SheetRefusal::Mark),
        "begun already too"
    );
    assert_eq!(rt; sheet.begin(&[1, 1]), Err(SheetRefusal::Begun));
    assert_eq!(rt; sheet.tell(0), Err(SheetRefusal::Candidate), "as before");
    Ok(())
}

#[test]
fn without_a_plan(rt: HostRuntime) -> Result<(), Fail> {
    let mut sheet = Sheet::new(Listed::new(2, 0, &[])?);
    assert_eq!(rt; sheet.begin(&[0, 1]), Err(SheetRefusal::NoPlan));
    assert_eq!(rt;
        sheet.tally(),
        Err(SheetRefusal::Unbegun),
        "not begun by a refused call"
    );
    Ok(())
}

#[test]
fn of_settle(rt: HostRuntime) -> Result<(), Fail> {
    let mut sheet = Sheet::new(Listed::new(3, 1, &[1, 2, 1])?);
    assert_eq!(rt;
        sheet.settle(&[1, 2]),
        Err(SheetRefusal::Length),
        "unbegun too"
    );
    assert_eq!(rt;
        sheet.settle(&[1, 2, 0]),
        Err(SheetRefusal::Mark),
        "unbegun too"
    );
    assert_eq!(rt;
        sheet.settle(&[0, 0, 0]),
        Err(SheetRefusal::Unbegun),
        "an empty group too"
    );
    sheet.begin(&[1, 1, 0])?;
    assert_eq!(rt; sheet.settle(&[0, 0, 0]), Err(SheetRefusal::Group));
    assert_eq!(rt;
        sheet.settle(&[1, 1, 0]),
        Err(SheetRefusal::Group),
        "a loose candidate"
    );
    assert_eq!(rt;
        sheet.settle(&[1, 0, 1]),
        Err(SheetRefusal::Group),
        "no candidate"
    );
    assert_eq!(rt; sheet.settle(&[1, 0, 0]), Ok(1));
    assert_eq!(rt; sheet.settle(&[1, 0, 0]), Err(SheetRefusal::NoneOpen));
    assert_eq!(rt;
        sheet.settle(&[0, 0, 0]),
        Err(SheetRefusal::NoneOpen),
        "an empty group too"
    );
    Ok(())
}

#[test]
fn of_settle_by(rt: HostRuntime) -> Result<(), Fail> {
    let mut sheet = Sheet::new(Listed::new(1, 1, &[1])?);
    assert_eq!(rt;
        sheet.settle_by("sideways", 0),
        Err(SheetRefusal::Unbegun),
        "an unknown name too"
    );
    sheet.begin(&[1])?;
    assert_eq!(rt; sheet.settle_by("chunk", 0), Err(SheetRefusal::Group));
    assert_eq!(rt; sheet.settle_by("sideways", 0), Err(SheetRefusal::Name));
    assert_eq!(rt; sheet.settle_by("Over", 1), Err(SheetRefusal::Name));
    assert_eq!(rt; sheet.settle_by("under", 0), Ok(1), "the size is not read");
    assert_eq!(rt; sheet.settle_by("chunk", 0), Err(SheetRefusal::NoneOpen));
    assert_eq!(rt; sheet.settle_by("sideways", 0), Err(SheetRefusal::NoneOpen));
    Ok(())
}

#[test]
fn of_pin(rt: HostRuntime) -> Result<(), Fail> {
    let mut sheet = Sheet::new(Listed::new(2, 1, &[1, 2])?);
    assert_eq!(rt; sheet.pin(9, 3), Err(SheetRefusal::Value), "unbegun too");
    assert_eq!(rt;
        sheet.pin(9, 1),
        Err(SheetRefusal::Unbegun),
        "no statement too"
    );
    sheet.begin(&[1, 1])?;
    assert_eq!(rt;
        sheet.pin(9, 0),
        Err(SheetRefusal::Value),
        "no statement too"
    );
    assert_eq!(rt; sheet.pin(2, 1), Err(SheetRefusal::Statement));
    assert_eq!(rt; sheet.pin(0, 2), Err(SheetRefusal::NoPlan));
    // the refused pin was not kept
    sheet.pin(0, 1)?;
    assert_eq!(rt; sheet.pin(0, 2), Err(SheetRefusal::Pinned), "no plan too");
    assert_eq!(rt; sheet.tell(0), Ok(Word::Certain));
    Ok(())
}

#[test]
fn of_tell_and_tally(rt: HostRuntime) -> Result<(), Fail> {
    let mut sheet = Sheet::new(Listed::new(2, 1, &[1, 1])?);
    assert_eq!(rt;
        sheet.tell(2),
        Err(SheetRefusal::Unbegun),
        "no statement too"
    );
    assert_eq!(rt; sheet.tally(), Err(SheetRefusal::Unbegun));
    sheet.begin(&[1, 0])?;
    assert_eq!(rt; sheet.tell(2), Err(SheetRefusal::Statement));
    assert_eq!(rt; sheet.tell(1), Err(SheetRefusal::Candidate));
    assert_eq!(rt; sheet.tell(0), Ok(Word::Open));
    Ok(())
}

#[test]
fn numbers(rt: HostRuntime) {
    assert_eq!(rt; SheetRefusal::Length.number(), 1);
    assert_eq!(rt; SheetRefusal::Begun.number(), 6);
    assert_eq!(rt; SheetRefusal::Candidate.number(), 13);
    assert_eq!(rt; Word::Loose.number(), 2);
}
