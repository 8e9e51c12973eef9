// The readings, statement 0 being a, 1 b and 2 c; entry 2s says that s holds, 2s + 1 that it fails.
use crate::*;

// a :- not b. b :- not a. :- a, a.
#[test]
fn a_body_is_a_set(rt: HostRuntime) {
    let rows = [headed(0, 0, 1), headed(1, 1, 1), headless(2, 2)];
    let mut p = [0u8; 2];
    assert_eq!(rt;
        extended(2, &rows, &[3, 1, 0, 0], &mut p),
        Ok(Outcome::Fits)
    );
    assert_eq!(rt; p, [2, 1]);
}

// a :- b. b :- not c. c :- not b. with a holding, and the same with a :- b. in two rows
#[test]
fn equal_rows_are_two_rules(rt: HostRuntime) {
    let one = [headed(0, 0, 1), headed(1, 1, 1), headed(2, 2, 1)];
    let mut p = [1u8, 0, 0];
    assert_eq!(rt; extended(3, &one, &[2, 5, 3], &mut p), Ok(Outcome::Fits));
    assert_eq!(rt; p, [1, 1, 2]);
    let two = [
        headed(0, 0, 1),
        headed(0, 0, 1),
        headed(1, 1, 1),
        headed(2, 2, 1),
    ];
    let mut q = [1u8, 0, 0];
    assert_eq!(rt; extended(3, &two, &[2, 5, 3], &mut q), Ok(Outcome::Fits));
    assert_eq!(rt; q, [1, 0, 0]);
}

// a. :- a.
#[test]
fn contraposition_forces_against_what_holds(rt: HostRuntime) {
    let rows = [headed(0, 0, 0), headless(0, 1)];
    let mut p = [0u8; 1];
    assert_eq!(rt; extended(1, &rows, &[0], &mut p), Ok(Outcome::Clash));
    assert_eq!(rt; p, [0]);
}

// a :- b. with a holding and b failing
#[test]
fn backchain_forces_a_cancelled_rule(rt: HostRuntime) {
    let rows = [headed(0, 0, 1)];
    let mut p = [1u8, 2];
    assert_eq!(rt; extended(2, &rows, &[2], &mut p), Ok(Outcome::Clash));
    assert_eq!(rt; p, [1, 2]);
}

// a headless rule with an empty body
#[test]
fn a_bodiless_headless_rule_clashes(rt: HostRuntime) {
    let rows = [headless(0, 0)];
    let mut p = [0u8; 1];
    assert_eq!(rt; extended(1, &rows, &[], &mut p), Ok(Outcome::Clash));
    assert_eq!(rt; p, [0]);
}

// a :- b. b :- a. c :- not a.
#[test]
fn statements_that_found_each_other_fail(rt: HostRuntime) {
    let rows = [headed(0, 0, 1), headed(1, 1, 1), headed(2, 2, 1)];
    let mut p = [0u8; 3];
    assert_eq!(rt; extended(3, &rows, &[2, 0, 1], &mut p), Ok(Outcome::Fits));
    assert_eq!(rt; p, [2, 2, 1]);
}

// a :- not a. forces nothing, and either value clashes
#[test]
fn a_partial_may_fit_without_a_plan(rt: HostRuntime) {
    let rows = [headed(0, 0, 1)];
    let mut p = [0u8; 1];
    assert_eq!(rt; extended(1, &rows, &[1], &mut p), Ok(Outcome::Fits));
    assert_eq!(rt; p, [0]);
    let mut q = [1u8; 1];
    assert_eq!(rt; extended(1, &rows, &[1], &mut q), Ok(Outcome::Clash));
    let mut r = [2u8; 1];
    assert_eq!(rt; extended(1, &rows, &[1], &mut r), Ok(Outcome::Clash));
}

// the length is asked before the bytes, and a refusal leaves the partial
#[test]
fn refusals_leave_the_partial(rt: HostRuntime) {
    let rows = [headed(0, 0, 1)];
    let mut p = [3u8; 2];
    assert_eq!(rt;
        extended(1, &rows, &[1], &mut p),
        Err(Failure::Refused(Refusal::Length))
    );
    assert_eq!(rt; p, [3, 3]);
    let mut q = [3u8; 1];
    assert_eq!(rt;
        extended(1, &rows, &[1], &mut q),
        Err(Failure::Refused(Refusal::Value))
    );
    assert_eq!(rt; q, [3]);
}

// a head, a run or an entry outside the counts is not sealed
#[test]
fn what_is_outside_is_not_sealed(rt: HostRuntime) {
    let mut p = [0u8; 1];
    assert_eq!(rt;
        extended(1, &[headed(1, 0, 1)], &[1], &mut p),
        Err(Failure::Unsealed(SealRefusal::Outside))
    );
    assert_eq!(rt;
        extended(1, &[headed(0, 0, 2)], &[1], &mut p),
        Err(Failure::Unsealed(SealRefusal::Outside))
    );
    assert_eq!(rt;
        extended(1, &[headed(0, 0, 1)], &[2], &mut p),
        Err(Failure::Unsealed(SealRefusal::Outside))
    );
}
