// Counts the extensions that settling takes: all that hold in the first plan are asked for at once, again and again, until none is open.
#![tactic(auto)]

use base::{Base, Outcome};
use clauses::list::ClauseList;
use clauses::run::Run;
use closing::Closing;
use search::Search;
use source::bytes::{FAILS, HOLDS, MARKED, UNDECIDED, marks_any};
use source::{Answer, Question, Refusal, WIDTH_MAX};
use std::cell::Cell;
use std::io;
use std::time::Instant;

// A base that counts how often it is extended.
#[derive(Drop)]
struct Counting<'a, 'c, B> {
    base: &'a B,
    count: &'c Cell<u64>,
}

impl<'a, 'c, B: Base> Base for Counting<'a, 'c, B> {
    ghost wide = { λ s. B.Base.wide s.base.now };

    ghost plan = { λ s. B.Base.plan s.base.now };

    ghost outcome = { λ s. B.Base.outcome s.base.now };

    ghost lawful = { λ s. B.Base.lawful s.base.now };

    fn width(&self) -> usize {
        self.base.width()
    }

    fn extend(&self, partial: &mut [u8]) -> Result<Outcome, Refusal> {
        self.count.set(self.count.get().wrapping_add(1));
        self.base.extend(partial)
    }
}

// What a settling came to; all zero if it failed.
#[derive(Clone, Copy, Default)]
struct Settled {
    questions: usize,
    certain: usize,
    extensions: u64,
}

// Opens what holds in the plan.
fn open_holding(plan: &[u8], open: &mut [u8]) {
    for (mark, &byte) in open.iter_mut().zip(plan) {
        *mark = if byte == HOLDS { MARKED } else { 0 };
    }
}

// Closes what fails in the plan.
fn close_failing(plan: &[u8], open: &mut [u8]) {
    for (mark, &byte) in open.iter_mut().zip(plan) {
        if byte == FAILS {
            *mark = 0;
        }
    }
}

// Asks with all that is open until nothing is, or all of it is certain; the number of questions.
fn settle<B: Base>(
    search: &Search<B>,
    none: &[u8],
    open: &mut [u8],
    place: &mut [u8],
) -> Result<usize, Refusal> {
    search.first_plan(Question::new(none, none), place)?;
    open_holding(place, open);
    // Each question but the last closes a statement.
    for asked in 1..=WIDTH_MAX {
        if !marks_any(open) {
            return Ok(asked);
        }
        if search.first_plan(Question::new(none, open), place)? == Answer::Nothing {
            return Ok(asked + 1);
        }
        close_failing(place, open);
    }
    Ok(WIDTH_MAX + 1)
}

// Settles a base of so many statements.
// Stays: arrays, here and below, since a count must not depend on whether memory suffices.
fn settle_base<B: Base>(base: &B, width: usize) -> Option<Settled> {
    let none = [UNDECIDED; WIDTH_MAX];
    let mut open = [0; WIDTH_MAX];
    let mut place = [UNDECIDED; WIDTH_MAX];
    let open = open.get_mut(..width)?;
    let count = Cell::new(0);
    let search = Search {
        base: Counting {
            base,
            count: &count,
        },
    };
    let questions = settle(&search, none.get(..width)?, open, place.get_mut(..width)?).ok()?;
    Some(Settled {
        questions,
        certain: open.iter().filter(|&&mark| mark == MARKED).count(),
        extensions: count.get(),
    })
}

// The most pairs that are settled.
const PAIRS_MAX: usize = 120;

// The entries of the clauses of independent pairs: of each pair one holds, they exclude each other, and either supports
// a third statement.
fn entries() -> [u16; 8 * PAIRS_MAX] {
    let mut entries = [0; 8 * PAIRS_MAX];
    for (i, pair) in entries.chunks_exact_mut(8).enumerate() {
        let a = 6 * (i as u16);
        let b = a + 2;
        let c = a + 4;
        pair.copy_from_slice(&[a, b, a + 1, b + 1, a + 1, c, b + 1, c]);
    }
    entries
}

// Those clauses, of two entries each.
fn runs() -> [Run; 4 * PAIRS_MAX] {
    let mut runs = [Run { first: 0, count: 2 }; 4 * PAIRS_MAX];
    for (clause, run) in runs.iter_mut().enumerate() {
        run.first = 2 * (clause as u16);
    }
    runs
}

// Settles so many independent pairs.
fn settle_pairs(pairs: usize) -> Option<Settled> {
    let (runs, entries) = (runs(), entries());
    let pairs = pairs.min(PAIRS_MAX);
    let width = 3 * pairs;
    let rules = ClauseList::new(width, &runs[..4 * pairs], &entries[..8 * pairs]).ok()?;
    settle_base(&Closing { rules }, width)
}

fn main(rt: HostRuntime) -> io::Result<()> {
    for n in [20, 40, 60, 120] {
        let start = Instant::now(&rt)?;
        let s = settle_pairs(n).unwrap_or_default();
        let micros = start.elapsed(&rt)?.as_micros();
        println!(rt;
            "pairs {n} questions {} certain {} extensions {}",
            s.questions, s.certain, s.extensions
        )?;
        eprintln!(rt; "pairs {n} microseconds {micros}")?;
    }
    Ok(())
}
