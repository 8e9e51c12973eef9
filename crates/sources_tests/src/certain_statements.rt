// What holds in every plan, asked of a source that is listed and of a pair.
use certain::is_certain;
use source::Refusal;
use sources::{Listed, Pair};
use std::test::Fail;

// Two plans that exclude each other's first statement, and have the third in common.
#[test]
fn of_listed_plans(rt: HostRuntime) -> Result<(), Fail> {
    let plans = Listed::new(3, 2, &[1, 2, 1, 2, 1, 1])?;
    let mut group = [0u8; 3];
    let mut place = [0u8; 3];
    assert_eq!(rt;
        is_certain(&plans, &[0, 0, 0], 2, &mut group, &mut place),
        Ok(true)
    );
    assert_eq!(rt; place, [0, 0, 0]);
    assert_eq!(rt;
        is_certain(&plans, &[0, 0, 0], 0, &mut group, &mut place),
        Ok(false)
    );
    assert_eq!(rt; place, [2, 1, 1]);
    assert_eq!(rt; group, [1, 0, 0]);
    assert_eq!(rt;
        is_certain(&plans, &[0, 2, 0], 0, &mut group, &mut place),
        Ok(true),
        "pinned"
    );
    assert_eq!(rt;
        is_certain(&plans, &[0, 0], 0, &mut group, &mut place),
        Err(Refusal::Length)
    );
    Ok(())
}

// What holds in every plan of the second half holds in every joining.
#[test]
fn of_a_pair(rt: HostRuntime) -> Result<(), Fail> {
    let first = Listed::new(1, 2, &[1, 2])?;
    let second = Listed::new(1, 1, &[1])?;
    let pair = Pair::new(first, second);
    let mut group = [0u8; 2];
    let mut place = [0u8; 2];
    assert_eq!(rt;
        is_certain(&pair, &[0, 0], 1, &mut group, &mut place),
        Ok(true)
    );
    assert_eq!(rt;
        is_certain(&pair, &[0, 0], 0, &mut group, &mut place),
        Ok(false)
    );
    assert_eq!(rt; place, [2, 1]);
    Ok(())
}
