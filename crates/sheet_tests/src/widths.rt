// Sheets over no statements, over as many as a sheet has lines, and over one more.
use sheet::{Sheet, SheetRefusal, Tally, Word};
use sources::{Listed, Pair};
use std::test::Fail;

#[test]
fn none(rt: HostRuntime) -> Result<(), Fail> {
    let mut sheet = Sheet::new(Listed::new(0, 1, &[])?);
    sheet.begin(&[])?;
    assert_eq!(rt;
        sheet.tally(),
        Ok(Tally {
            open: 0,
            certain: 0,
            loose: 0,
        })
    );
    assert_eq!(rt; sheet.tell(0), Err(SheetRefusal::Statement));
    assert_eq!(rt; sheet.pin(0, 1), Err(SheetRefusal::Statement));
    assert_eq!(rt; sheet.settle(&[]), Err(SheetRefusal::NoneOpen));
    Ok(())
}

#[test]
fn as_many_as_lines(rt: HostRuntime) -> Result<(), Fail> {
    let row = [1u8; 512];
    let mut sheet = Sheet::new(Listed::new(512, 1, &row)?);
    sheet.begin(&row)?;
    sheet.pin(511, 1)?;
    assert_eq!(rt; sheet.tell(511), Ok(Word::Certain));
    assert_eq!(rt; sheet.settle_by("over", 0), Ok(511));
    assert_eq!(rt;
        sheet.tally(),
        Ok(Tally {
            open: 0,
            certain: 512,
            loose: 0,
        })
    );
    Ok(())
}

// Two sources of 256 and 257 statements are joined into one that is too wide.
#[test]
fn one_too_many(rt: HostRuntime) -> Result<(), Fail> {
    let row = [1u8; 513];
    let first = Listed::new(256, 1, &row[0..256])?;
    let second = Listed::new(257, 1, &row[0..257])?;
    let mut sheet = Sheet::new(Pair::new(first, second));
    assert_eq!(rt; sheet.begin(&row[0..512]), Err(SheetRefusal::Length));
    assert_eq!(rt; sheet.begin(&[2u8; 513]), Err(SheetRefusal::Mark));
    assert_eq!(rt; sheet.begin(&row), Err(SheetRefusal::Wide));
    assert_eq!(rt; sheet.tally(), Err(SheetRefusal::Unbegun));
    Ok(())
}
