// Whole uses over listed plans. Statements: 0 and 1 one ferry at two quays, 2 another ferry at the slip, 3 the first ferry in port.
use runs::run::run;
use runs::{Call, Reply};
use sheet::{Sheet, SheetRefusal, Tally, Word};
use sources::Listed;
use std::test::Fail;

// At the first quay with the slip taken or not, or at the second with the slip taken.
const PLANS: [u8; 12] = [1, 2, 1, 1, 2, 1, 1, 1, 1, 2, 2, 1];

// The words after a begin: loose is what fails in the first plan.
#[test]
fn begins(rt: HostRuntime) -> Result<(), Fail> {
    let mut sheet = Sheet::new(Listed::new(4, 3, &PLANS)?);
    sheet.begin(&[1, 1, 1, 0])?;
    assert_eq!(rt; sheet.tell(0), Ok(Word::Open));
    assert_eq!(rt; sheet.tell(1), Ok(Word::Loose));
    assert_eq!(rt; sheet.tell(3), Err(SheetRefusal::Candidate));
    assert_eq!(rt;
        sheet.tally(),
        Ok(Tally {
            open: 2,
            certain: 0,
            loose: 1,
        })
    );
    Ok(())
}

// After a plan every open candidate that fails in it is loose, marked or not; after none the marked are certain.
#[test]
fn settles_a_group(rt: HostRuntime) -> Result<(), Fail> {
    let mut sheet = Sheet::new(Listed::new(4, 3, &PLANS)?);
    sheet.begin(&[1, 1, 1, 1])?;
    assert_eq!(rt; sheet.settle(&[0, 0, 1, 0]), Ok(1));
    assert_eq!(rt; sheet.tell(2), Ok(Word::Loose));
    assert_eq!(rt; sheet.settle(&[1, 0, 0, 1]), Ok(1));
    assert_eq!(rt; sheet.tell(0), Ok(Word::Loose));
    assert_eq!(rt; sheet.settle(&[0, 0, 0, 1]), Ok(1));
    assert_eq!(rt; sheet.tell(3), Ok(Word::Certain));
    Ok(())
}

// A pin turns a loose word back to open, keeps what is certain, and makes a candidate pinned to hold certain.
#[test]
fn pins_read_anew(rt: HostRuntime) -> Result<(), Fail> {
    let mut sheet = Sheet::new(Listed::new(4, 3, &PLANS)?);
    sheet.begin(&[1, 1, 1, 1])?;
    assert_eq!(rt; sheet.settle_by("over", 0), Ok(1));
    assert_eq!(rt; sheet.settle_by("over", 0), Ok(1));
    assert_eq!(rt; sheet.settle_by("over", 0), Ok(1));
    assert_eq!(rt;
        sheet.tally(),
        Ok(Tally {
            open: 0,
            certain: 1,
            loose: 3,
        })
    );
    sheet.pin(1, 1)?;
    assert_eq!(rt; sheet.tell(1), Ok(Word::Certain));
    assert_eq!(rt; sheet.tell(2), Ok(Word::Open));
    assert_eq!(rt; sheet.tell(3), Ok(Word::Certain));
    assert_eq!(rt; sheet.settle_by("under", 0), Ok(1));
    assert_eq!(rt; sheet.tell(2), Ok(Word::Certain));
    Ok(())
}

// A chunk larger than what is open marks all that is open; a chunk of 1 the lowest alone.
#[test]
fn chunks(rt: HostRuntime) -> Result<(), Fail> {
    let mut sheet = Sheet::new(Listed::new(3, 1, &[1, 1, 1])?);
    sheet.begin(&[1, 1, 1])?;
    assert_eq!(rt; sheet.settle_by("chunk", 1), Ok(1));
    assert_eq!(rt; sheet.tell(0), Ok(Word::Certain));
    assert_eq!(rt; sheet.tell(1), Ok(Word::Open));
    assert_eq!(rt; sheet.settle_by("chunk", 600), Ok(2));
    assert_eq!(rt;
        sheet.tally(),
        Ok(Tally {
            open: 0,
            certain: 3,
            loose: 0,
        })
    );
    Ok(())
}

// As many calls are made as have a place for the reply, and a refused one changes nothing.
#[test]
fn runs_a_list(rt: HostRuntime) -> Result<(), Fail> {
    let plans = Listed::new(1, 2, &[1, 2])?;
    let calls = [
        Call::Tally,
        Call::Begin(&[1]),
        Call::SettleBy("over", 0),
        Call::Tell(0),
        Call::Pin(0, 1),
    ];
    let mut replies = [Ok(Reply::Done); 4];
    let (sheet, made) = run(plans, &calls, &mut replies);
    assert_eq!(rt; made, 4);
    assert_eq!(rt;
        replies,
        [
            Err(SheetRefusal::Unbegun),
            Ok(Reply::Done),
            Ok(Reply::Settled(1)),
            Ok(Reply::Told(Word::Loose)),
        ]
    );
    assert_eq!(rt; sheet.tell(0), Ok(Word::Loose));
    Ok(())
}
