// Plans that are listed.
use source::{Answer, Question, Refusal, Source};
use sources::{Listed, ListingRefusal};
use std::test::Fail;

// The first of two rows that serve is given.
#[test]
fn gives_the_first_row(rt: HostRuntime) -> Result<(), Fail> {
    let rows = [1, 1, 2, 1, 1, 2, 2, 2];
    let plans = Listed::new(2, 4, &rows)?;
    let mut place = [0u8; 2];
    assert_eq!(rt;
        plans.question(Question::new(&[0, 0], &[1, 1]), &mut place),
        Ok(Answer::Plan)
    );
    assert_eq!(rt; place, [2, 1]);
    Ok(())
}

// No row serves: the place is as before.
#[test]
fn gives_none(rt: HostRuntime) -> Result<(), Fail> {
    let rows = [1, 2, 1, 1];
    let plans = Listed::new(2, 2, &rows)?;
    let mut place = [7, 9];
    assert_eq!(rt;
        plans.question(Question::new(&[0, 0], &[1, 0]), &mut place),
        Ok(Answer::Nothing)
    );
    assert_eq!(rt; place, [7, 9]);
    assert_eq!(rt;
        plans.question(Question::new(&[2, 0], &[0, 0]), &mut place),
        Ok(Answer::Nothing),
        "pins that no plan agrees with"
    );
    Ok(())
}

// An empty group demands nothing.
#[test]
fn empty_group(rt: HostRuntime) -> Result<(), Fail> {
    let rows = [1, 1];
    let plans = Listed::new(2, 1, &rows)?;
    let mut place = [0u8; 2];
    assert_eq!(rt;
        plans.question(Question::new(&[1, 0], &[0, 0]), &mut place),
        Ok(Answer::Plan)
    );
    assert_eq!(rt; place, [1, 1]);
    Ok(())
}

// Without statements one row is the empty plan, and no row is no plan.
#[test]
fn no_statements(rt: HostRuntime) -> Result<(), Fail> {
    let mut plans = Listed::none();
    assert_eq!(rt;
        plans.question(Question::new(&[], &[]), &mut []),
        Ok(Answer::Nothing)
    );
    plans.lend(0, 1, &[])?;
    assert_eq!(rt; plans.width(), 0);
    assert_eq!(rt;
        plans.question(Question::new(&[], &[]), &mut []),
        Ok(Answer::Plan)
    );
    plans.lend(0, 0, &[])?;
    assert_eq!(rt;
        plans.question(Question::new(&[], &[]), &mut []),
        Ok(Answer::Nothing)
    );
    Ok(())
}

// Where several causes are there, the one with the lowest number is given.
#[test]
fn refusals_in_order(rt: HostRuntime) -> Result<(), Fail> {
    let rows = [1, 1];
    let plans = Listed::new(2, 1, &rows)?;
    let mut place = [5, 6];
    assert_eq!(rt;
        plans.question(Question::new(&[3, 0, 0], &[2, 0]), &mut place),
        Err(Refusal::Length)
    );
    assert_eq!(rt;
        plans.question(Question::new(&[0, 0], &[0]), &mut place),
        Err(Refusal::Length)
    );
    assert_eq!(rt;
        plans.question(Question::new(&[3, 0], &[2, 0]), &mut place),
        Err(Refusal::Value)
    );
    assert_eq!(rt;
        plans.question(Question::new(&[2, 0], &[2, 0]), &mut place),
        Err(Refusal::Mark)
    );
    assert_eq!(rt; place, [5, 6]);
    Ok(())
}

#[test]
fn numbers(rt: HostRuntime) {
    assert_eq!(rt; Refusal::Length.number(), 1);
    assert_eq!(rt; Refusal::Value.number(), 2);
    assert_eq!(rt; Refusal::Mark.number(), 3);
    assert_eq!(rt; Refusal::Wide.number(), 4);
    assert_eq!(rt; ListingRefusal::Malformed.number(), 27);
}

// Rows that cannot be listed are refused, and the rows from before stay.
#[test]
fn refused_rows(rt: HostRuntime) -> Result<(), Fail> {
    let rows = [2, 1];
    let long = [1u8; 513];
    let mut plans = Listed::new(2, 1, &rows)?;
    assert_eq!(rt;
        plans.lend(513, 1, &long),
        Err(ListingRefusal::Malformed),
        "width"
    );
    assert_eq!(rt;
        plans.lend(0, 4097, &[]),
        Err(ListingRefusal::Malformed),
        "count"
    );
    assert_eq!(rt;
        plans.lend(2, 2, &[1, 1, 1]),
        Err(ListingRefusal::Malformed),
        "length"
    );
    assert_eq!(rt;
        plans.lend(2, 1, &[1, 0]),
        Err(ListingRefusal::Malformed),
        "a byte 0"
    );
    assert_eq!(rt;
        plans.lend(2, 1, &[1, 3]),
        Err(ListingRefusal::Malformed),
        "a byte 3"
    );
    let mut place = [0u8; 2];
    assert_eq!(rt;
        plans.question(Question::new(&[0, 0], &[0, 0]), &mut place),
        Ok(Answer::Plan)
    );
    assert_eq!(rt; place, [2, 1]);
    Ok(())
}

// The most that may be listed.
#[test]
fn limits(rt: HostRuntime) -> Result<(), Fail> {
    let row = [1u8; 512];
    let mut plans = Listed::none();
    plans.lend(512, 1, &row)?;
    assert_eq!(rt; plans.width(), 512);
    plans.lend(0, 4096, &[])?;
    assert_eq!(rt; plans.width(), 0);
    Ok(())
}
