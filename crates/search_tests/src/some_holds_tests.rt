// The search over the small base.
ghost use Rattle.std.specs.Prelude.{◌≤◌};

use crate::comparing::same_for_all;
use crate::enumerator::{FAILS, HOLDS, Rows};
use crate::some_holds::SomeHolds;
use search::Search;
use source::{Answer, Question, Refusal, Source};

#[derive(Drop)]
struct Somewhere;

impl Rows for Somewhere {
    fn is_plan(&self, row: &[u8]) -> bool {
        row.contains(&HOLDS)
    }
}

fn same_over<const N: usize>() -> bool
    requires { N ≤ 8 }
{
    let search = Search {
        base: SomeHolds::over(N),
    };
    same_for_all::<N, _, _>(&search, &Somewhere)
}

#[test]
fn first_plans_of_all_small_widths(rt: HostRuntime) {
    assert!(rt; same_over::<0>());
    assert!(rt; same_over::<1>());
    assert!(rt; same_over::<2>());
    assert!(rt; same_over::<3>());
    assert!(rt; same_over::<4>());
    assert!(rt; same_over::<5>());
}

#[test]
fn the_deepest_walk(rt: HostRuntime) {
    let search = Search {
        base: SomeHolds::over(512),
    };
    let zeros = [0u8; 512];
    let mut place = [7u8; 512];
    assert_eq!(rt; search.width(), 512);
    let answer = search.question(Question::new(&zeros, &zeros), &mut place);
    assert_eq!(rt; answer, Ok(Answer::Plan));
    let mut deepest = [FAILS; 512];
    deepest[511] = HOLDS;
    assert_eq!(rt; place, deepest);
}

#[test]
fn refusals_in_order(rt: HostRuntime) {
    let search = Search {
        base: SomeHolds::over(2),
    };
    let mut place = [7u8; 2];
    let short = search.first_plan(Question::new(&[3], &[2, 0]), &mut place);
    assert_eq!(rt; short, Err(Refusal::Length));
    let value = search.first_plan(Question::new(&[0, 3], &[2, 0]), &mut place);
    assert_eq!(rt; value, Err(Refusal::Value));
    let mark = search.first_plan(Question::new(&[0, 2], &[2, 0]), &mut place);
    assert_eq!(rt; mark, Err(Refusal::Mark));
    assert_eq!(rt; place, [7, 7]);
}
