// The search and the enumerator on the same questions.
ghost use Rattle.std.specs.Prelude.{◌≤◌};

use crate::enumerator::{FAILS, MARKED, Rows, first_row, string, strings};
use base::Base;
use search::Search;
use source::{Answer, Question};

// A byte that no plan has, to see that a place is left alone.
const UNTOUCHED: u8 = 7;

// The same first plan, or from both that there is none, with the place as it was.
fn same_answer<const N: usize, B: Base, T: Rows>(
    search: &Search<B>,
    rows: &T,
    pins: &[u8; N],
    group: &[u8; N],
) -> bool
    requires { N ≤ 8 }
{
    let mut place = [UNTOUCHED; N];
    let answer = search.first_plan(Question::new(pins, group), &mut place);
    match first_row(rows, pins, group) {
        Some(row) => answer == Ok(Answer::Plan) && place == row,
        None => answer == Ok(Answer::Nothing) && place == [UNTOUCHED; N],
    }
}

// All questions over N statements: all pins, and all groups.
pub fn same_for_all<const N: usize, B: Base, T: Rows>(search: &Search<B>, rows: &T) -> bool
    requires { N ≤ 8 }
{
    for pins in 0..strings(N, FAILS) {
        for group in 0..strings(N, MARKED) {
            if !same_answer(
                search,
                rows,
                &string::<N>(pins, FAILS),
                &string(group, MARKED),
            ) {
                return false;
            }
        }
    }
    true
}
