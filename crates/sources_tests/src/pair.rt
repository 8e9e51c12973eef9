// Two sources joined.
use source::{Answer, Question, Refusal, Source};
use sources::{Listed, Pair};
use std::test::Fail;

// A group may mark statements of one half only; the other half then only agrees with its pins.
#[test]
fn one_half_is_marked(rt: HostRuntime) -> Result<(), Fail> {
    let first = Listed::new(2, 2, &[1, 1, 2, 1])?;
    let second = Listed::new(1, 2, &[1, 2])?;
    let pair = Pair::new(first, second);
    assert_eq!(rt; pair.width(), 3);
    let mut place = [0u8; 3];
    assert_eq!(rt;
        pair.question(Question::new(&[0, 0, 0], &[1, 1, 0]), &mut place),
        Ok(Answer::Plan)
    );
    assert_eq!(rt; place, [2, 1, 1]);
    assert_eq!(rt;
        pair.question(Question::new(&[0, 0, 0], &[0, 0, 1]), &mut place),
        Ok(Answer::Plan)
    );
    assert_eq!(rt; place, [1, 1, 2]);
    assert_eq!(rt;
        pair.question(Question::new(&[0, 0, 1], &[0, 0, 0]), &mut place),
        Ok(Answer::Plan)
    );
    assert_eq!(rt; place, [1, 1, 1]);
    Ok(())
}

// Both halves are marked, and only one of them can fail at a marked statement.
#[test]
fn one_half_can_fail(rt: HostRuntime) -> Result<(), Fail> {
    let first = Listed::new(1, 1, &[1])?;
    let second = Listed::new(1, 2, &[1, 2])?;
    let pair = Pair::new(first, second);
    let mut place = [0u8; 2];
    assert_eq!(rt;
        pair.question(Question::new(&[0, 0], &[1, 1]), &mut place),
        Ok(Answer::Plan)
    );
    assert_eq!(rt; place, [1, 2]);
    Ok(())
}

// The same with the halves the other way round.
#[test]
fn other_half_can_fail(rt: HostRuntime) -> Result<(), Fail> {
    let first = Listed::new(1, 2, &[1, 2])?;
    let second = Listed::new(1, 1, &[1])?;
    let pair = Pair::new(first, second);
    let mut place = [0u8; 2];
    assert_eq!(rt;
        pair.question(Question::new(&[0, 0], &[1, 1]), &mut place),
        Ok(Answer::Plan)
    );
    assert_eq!(rt; place, [2, 1]);
    Ok(())
}

// The first half is answered and the second is not: the place is as before.
#[test]
fn place_is_put_back(rt: HostRuntime) -> Result<(), Fail> {
    let first = Listed::new(1, 1, &[2])?;
    let second = Listed::new(1, 1, &[1])?;
    let pair = Pair::new(first, second);
    let mut place = [8, 9];
    assert_eq!(rt;
        pair.question(Question::new(&[0, 2], &[1, 0]), &mut place),
        Ok(Answer::Nothing),
        "contrary pins"
    );
    assert_eq!(rt; place, [8, 9]);
    assert_eq!(rt;
        pair.question(Question::new(&[0, 0], &[0, 1]), &mut place),
        Ok(Answer::Nothing),
        "nothing marked fails"
    );
    assert_eq!(rt; place, [8, 9]);
    assert_eq!(rt;
        pair.question(Question::new(&[0, 3], &[0, 2]), &mut place),
        Err(Refusal::Value)
    );
    assert_eq!(rt;
        pair.question(Question::new(&[0, 0], &[0, 2]), &mut place),
        Err(Refusal::Mark)
    );
    assert_eq!(rt;
        pair.question(Question::new(&[0, 0], &[0]), &mut place),
        Err(Refusal::Length)
    );
    assert_eq!(rt; place, [8, 9]);
    Ok(())
}

// 512 statements can be asked.
#[test]
fn as_wide_as_may_be(rt: HostRuntime) -> Result<(), Fail> {
    let row = [1u8; 256];
    let first = Listed::new(256, 1, &row)?;
    let second = Listed::new(256, 1, &row)?;
    let pair = Pair::new(first, second);
    assert_eq!(rt; pair.width(), 512);
    let mut place = [0u8; 512];
    assert_eq!(rt;
        pair.question(Question::new(&[0u8; 512], &[0u8; 512]), &mut place),
        Ok(Answer::Plan)
    );
    assert_eq!(rt; place[511], 1);
    Ok(())
}

// 513 cannot; the other causes still come first.
#[test]
fn too_wide(rt: HostRuntime) -> Result<(), Fail> {
    let row = [1u8; 257];
    let first = Listed::new(256, 1, &row[0..256])?;
    let second = Listed::new(257, 1, &row)?;
    let pair = Pair::new(first, second);
    assert_eq!(rt; pair.width(), 513);
    let none = [0u8; 513];
    let mut place = [0u8; 513];
    assert_eq!(rt;
        pair.question(Question::new(&none, &none), &mut place),
        Err(Refusal::Wide)
    );
    assert_eq!(rt;
        pair.question(Question::new(&none, &[2u8; 513]), &mut place),
        Err(Refusal::Mark)
    );
    assert_eq!(rt;
        pair.question(Question::new(&none, &none), &mut [0u8; 512]),
        Err(Refusal::Length)
    );
    Ok(())
}

// A pair that is too wide makes every pair of it too wide.
#[test]
fn still_too_wide(rt: HostRuntime) -> Result<(), Fail> {
    let row = [1u8; 257];
    let first = Listed::new(256, 1, &row[0..256])?;
    let second = Listed::new(257, 1, &row)?;
    let pair = Pair::new(first, second);
    let wider = Pair::new(pair, Listed::none());
    assert_eq!(rt; wider.width(), 513);
    let none = [0u8; 513];
    let mut place = [0u8; 513];
    assert_eq!(rt;
        wider.question(Question::new(&none, &none), &mut place),
        Err(Refusal::Wide)
    );
    Ok(())
}
