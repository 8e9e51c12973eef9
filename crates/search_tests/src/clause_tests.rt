// The search over the clause base: all small clause lists.
ghost use Rattle.std.specs.Prelude.{◌≤◌};

use crate::comparing::same_for_all;
use crate::enumerator::{FAILS, HOLDS, Rows, string, strings};
use clauses::list::ClauseList;
use clauses::run::Run;
use closing::Closing;
use search::Search;
use source::bytes::byte_at;

// The entries that a clause over at most four statements can have.
const CODES: u16 = 8;

// Clauses as sets of entries: a clause has the entry e if its bit e is 1.
#[derive(Drop)]
struct Sets<'a> {
    clauses: &'a [u8],
}

fn has(clause: u8, e: u16) -> bool {
    e < CODES && (clause >> e) & 1 == 1
}

fn holds(row: &[u8], e: u16) -> bool {
    let byte = if e % 2 == 0 { HOLDS } else { FAILS };
    byte_at(row, usize::from(e / 2)) == byte
}

impl<'a> Rows for Sets<'a> {
    fn is_plan(&self, row: &[u8]) -> bool {
        self.clauses.iter().all(|&clause| (0..CODES).any(|e| has(clause, e) && holds(row, e)))
    }
}

// Writes the clauses as runs of entries; the entries written, if there is room for them.
fn lay<'a>(clauses: &[u8], runs: &mut [Run], entries: &'a mut [u16]) -> Option<&'a [u16]> {
    let mut n = 0u16;
    for (run, &clause) in runs.iter_mut().zip(clauses) {
        run.first = n;
        for e in 0..CODES {
            if has(clause, e) {
                *entries.get_mut(usize::from(n))? = e;
                n = n.saturating_add(1);
            }
        }
        run.count = n.saturating_sub(run.first);
    }
    entries.get(..usize::from(n))
}

// The search over lent clauses over N statements answers as the enumerator does over the same as sets, for all pins
// and groups.
fn same_for_list<const N: usize, const C: usize>(clauses: &[u8; C]) -> bool
    requires statements { N ≤ 8 }
    requires clauses { C ≤ 8 }
{
    let mut runs = [Run { first: 0, count: 0 }; C];
    let mut entries = [0u16; 32];
    let Some(entries) = lay(clauses, &mut runs, &mut entries) else {
        return false;
    };
    let mut rules = ClauseList::empty();
    if rules.lend(N, &runs, entries).is_err() {
        return false;
    }
    let search = Search {
        base: Closing { rules },
    };
    same_for_all::<N, _, _>(&search, &Sets { clauses })
}

// All lists of C clauses over N statements, from that of empty clauses on: each statement is not in a clause, is in it
// as holding, as failing, or as both.
fn same_for_lists<const N: usize, const C: usize>() -> bool
    requires statements { N ≤ 8 }
    requires clauses { C ≤ 8 }
{
    let Ok(full) = u8::try_from(strings(N, 3).saturating_sub(1)) else {
        return false;
    };
    for number in 0..strings(C, full) {
        if !same_for_list::<N, C>(&string(number, full)) {
            return false;
        }
    }
    true
}

// What a list keeps of entries that are lent for longer than its runs.
fn kept_entries<'a>(entries: &'a [u16]) -> Option<&'a [u16]> {
    let runs = [Run { first: 0, count: 1 }];
    let mut list = ClauseList::empty();
    list.lend(1, &runs, entries).ok()?;
    Some(list.entries)
}

#[test]
fn entries_outlive_runs(rt: HostRuntime) {
    assert_eq!(rt; kept_entries(&[1]), Some([1].as_slice()));
    assert_eq!(rt; kept_entries(&[2]), None);
}

#[test]
fn no_statements(rt: HostRuntime) {
    assert!(rt; same_for_lists::<0, 0>());
    assert!(rt; same_for_lists::<0, 2>());
}

#[test]
fn one_statement(rt: HostRuntime) {
    assert!(rt; same_for_lists::<1, 0>());
    assert!(rt; same_for_lists::<1, 4>());
}

#[test]
fn two_statements(rt: HostRuntime) {
    assert!(rt; same_for_lists::<2, 1>());
    assert!(rt; same_for_lists::<2, 3>());
}

#[test]
fn three_statements(rt: HostRuntime) {
    assert!(rt; same_for_lists::<3, 1>());
    assert!(rt; same_for_lists::<3, 2>());
}

#[test]
fn four_statements(rt: HostRuntime) {
    assert!(rt; same_for_lists::<4, 1>());
}
