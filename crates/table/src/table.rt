// The table of a sheet: its lines, with what they keep from the begin on.
ghost use Rattle.std.specs.Prelude.{◌≡◌, ℕ, ◌<◌, ◌≤◌, false, cond, take, if◌then◌else◌, MatchBool, ◌==◌, ◌≢◌, nat_lt, slice_index};
ghost use Rattle.uses.specs.Step.{pinned_at};
ghost use Rattle.std.specs.Bool.{then_some};
ghost use Rattle.uses.specs.declared.Word.TheVariants.{Open, Certain, Loose};
ghost use Rattle.table.specs.Blank.{blank, line_at, PinsFew, Unmarked, Unpinned};
ghost use Rattle.table.specs.Lineup.{width_of, begun_over, begun_line, byte_in, settled_line, pinned_line, lowest_of};

use crate::line::{LINES, Line};
use crate::lines::Lines;
use source::bytes::MARKED;
use uses::{Tally, Word};

#[derive(Drop)]
pub struct Table {
    // the width over which it was begun
    pub over: Option<usize>,
    pub lines: Lines,
    ghost narrow: { width_of over ≤ 512 },
    ghost few: { PinsFew lines.rows },
    ghost unmarked: { Unmarked (width_of over) lines.rows },
    ghost unpinned: { Unpinned (width_of over) lines.rows },
}

// The mark of a statement, `n` being the number of open ones below it: it is marked if it is one of the lowest open ones.
fn lowest_mark(is_open: bool, n: usize, limit: usize) -> u8
    ensures { result ≡ (if cond is_open (nat_lt n limit) false then 1 else 0) }
{
    if is_open && n < limit { MARKED } else { 0 }
}

impl Table {
    ghost use Rattle.table.specs.Count.{count_of};

    pub fn new() -> Self
        ensures over { result.over ≡ None }
        ensures lines { (k : ℕ) → line_at result.lines.rows k ≡ blank }
    {
        Table {
            over: None,
            lines: Lines::new(),
        }
    }

    // The width over which it was begun, 0 where it is not begun.
    pub fn width(&self) -> usize
        ensures { result ≡ width_of self.now.over }
    {
        self.over.unwrap_or(0)
    }

    // The lines of the statements over which it was begun.
    pub fn rows(&self) -> &[Line]
        ensures { result.now ≡ take (width_of self.now.over) self.now.lines.rows }
    {
        &self.lines.rows[..self.width()]
    }

    // Whether it was begun over that width.
    pub fn is_begun(&self, width: usize) -> bool
        ensures { result ≡ begun_over self.now.over width }
    {
        self.over == Some(width)
    }

    // How many candidates have that word.
    pub fn count(&self, word: Word) -> usize
        ensures { result ≡ count_of word self.now }
    {
        // Stays: a loop, since `filter` branches at each line, and the count took half as long again.
        let mut n = 0;
        for i in 0..self.width() {
            n += usize::from(self.lines.rows[i].has(word));
        }
        n
    }

    // Whether no candidate is open.
    pub fn none_open(&self) -> bool
        ensures { MatchBool result (count_of Open self.now ≡ 0) (count_of Open self.now ≢ 0) }
    {
        self.count(Word::Open) == 0
    }

    pub fn tally(&self) -> Tally
        ensures still_open { result.open ≡ count_of Open self.now }
        ensures certain { result.certain ≡ count_of Certain self.now }
        ensures loose { result.loose ≡ count_of Loose self.now }
    {
        Tally {
            open: self.count(Word::Open),
            certain: self.count(Word::Certain),
            loose: self.count(Word::Loose),
        }
    }

    // The lowest open candidates, at most `limit`.
    pub fn lowest(&self, limit: usize) -> [u8; LINES]
        ensures { (k : ℕ) → slice_index result k ≡ (if lowest_of self.now.lines.rows limit k then 1 else 0) }
    {
        // Stays: by index, since nothing is known of what is written through `iter_mut` under a `zip`.
        let mut marks = [0; LINES];
        let mut n = 0;
        for (i, line) in self.rows().iter().enumerate() {
            let open = line.has(Word::Open);
            marks[i] = lowest_mark(open, n, limit);
            n += usize::from(open);
        }
        marks
    }

    // The pins with one more.
    pub fn pins_with(&self, statement: usize, way: u8) -> [u8; LINES]
        requires inside { statement < width_of self.now.over }
        ensures { (k : ℕ) → slice_index result k ≡ pinned_at (λ j. (line_at self.now.lines.rows j).pin) statement way k }
    {
        let mut pins = self.lines.pins();
        pins[statement] = way;
        pins
    }

    pub fn begin(&mut self, width: usize, marks: &[u8; LINES], plan: &[u8; LINES])
        requires narrow { width ≤ 512 }
        requires marks { (k : ℕ) → width ≤ k → slice_index marks.now k ≡ 0 }
        ensures over { self.new.over ≡ Some width }
        ensures lines { (k : ℕ) → line_at self.new.lines.rows k ≡ begun_line (slice_index marks.now k) (slice_index plan.now k) }
    {
        self.over = Some(width);
        self.lines.begin(marks, plan);
    }

    pub fn settle(&mut self, plan: &Option<[u8; LINES]>, marks: &[u8; LINES])
        ensures over { self.new.over ≡ self.old.over }
        ensures lines { (k : ℕ) → line_at self.new.lines.rows k ≡ settled_line (byte_in plan.now k) (line_at self.old.lines.rows k) (slice_index marks.now k) }
    {
        self.lines.settle(plan, marks);
    }

    pub fn repin(&mut self, statement: usize, way: u8, plan: &[u8; LINES])
        requires inside { statement < width_of self.old.over }
        requires way { way ≤ 2 }
        ensures over { self.new.over ≡ self.old.over }
        ensures lines { (k : ℕ) → line_at self.new.lines.rows k ≡ pinned_line (then_some (k == statement) way) (line_at self.old.lines.rows k) (slice_index plan.now k) }
    {
        self.lines.repin(statement, way, plan);
    }
}
