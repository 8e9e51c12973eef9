// The lines of a sheet, each changed in place.
// Stays: the lent bytes are read by index, since nothing is known of what is written through `iter_mut` under a `zip`.
ghost use Rattle.std.specs.Prelude.{◌≡◌, ℕ, ◌<◌, ◌≤◌, true, false, length, MatchBool, ◌==◌, slice_index};
ghost use Rattle.std.specs.Bool.{then_some};
ghost use Rattle.uses.specs.declared.Word.TheVariants.{Open};
ghost use Rattle.table.specs.Blank.{blank, line_at};
ghost use Rattle.table.specs.Lineup.{line_has, begun_line, byte_in, settled_line, pinned_line};

use crate::line::{LINES, Line};
use source::bytes::{MARKED, UNDECIDED};
use uses::Word;

#[derive(Drop)]
pub struct Lines {
    pub rows: [Line; LINES],
    ghost whole: { length rows ≡ 512 },
}

// The byte of a statement in the plan, if a plan came.
fn byte_in(plan: &Option<[u8; LINES]>, statement: usize) -> Option<u8>
    requires { statement < 512 }
    ensures { result ≡ byte_in plan.now statement }
{
    plan.as_ref().map(|plan| plan[statement])
}

impl Lines {
    pub fn new() -> Self
        ensures { (k : ℕ) → line_at result.rows k ≡ blank }
    {
        let blank = Line {
            candidate: false,
            pin: UNDECIDED,
            word: Word::Open,
        };
        Lines {
            rows: [blank; LINES],
        }
    }

    pub fn begin(&mut self, marks: &[u8; LINES], plan: &[u8; LINES])
        ensures { (k : ℕ) → line_at self.new.rows k ≡ begun_line (slice_index marks.now k) (slice_index plan.now k) }
    {
        for (i, row) in self.rows.iter_mut().enumerate() {
            row.begin(marks[i], plan[i]);
        }
    }

    pub fn settle(&mut self, plan: &Option<[u8; LINES]>, marks: &[u8; LINES])
        ensures { (k : ℕ) → line_at self.new.rows k ≡ settled_line (byte_in plan.now k) (line_at self.old.rows k) (slice_index marks.now k) }
    {
        for (i, row) in self.rows.iter_mut().enumerate() {
            row.settle(byte_in(plan, i), marks[i]);
        }
    }

    pub fn repin(&mut self, statement: usize, way: u8, plan: &[u8; LINES])
        requires { statement < 512 }
        ensures { (k : ℕ) → line_at self.new.rows k ≡ pinned_line (then_some (k == statement) way) (line_at self.old.rows k) (slice_index plan.now k) }
    {
        for (i, row) in self.rows.iter_mut().enumerate() {
            row.repin((i == statement).then_some(way), plan[i]);
        }
    }

    // The pins of the lines.
    pub fn pins(&self) -> [u8; LINES]
        ensures { (k : ℕ) → slice_index result k ≡ (line_at self.now.rows k).pin }
    {
        // Stays: a loop, since `map` takes the lines by value, and they would be copied to give their pins.
        let mut pins = [UNDECIDED; LINES];
        for (i, line) in self.rows.iter().enumerate() {
            pins[i] = line.pin;
        }
        pins
    }

    // Whether the statement is an open candidate.
    fn is_open(&self, statement: usize) -> bool
        ensures { result ≡ line_has Open (line_at self.now.rows statement) }
    {
        self.rows
            .get(statement)
            .is_some_and(|line| line.has(Word::Open))
    }

    // Whether the group marks open candidates alone.
    pub fn marks_open(&self, group: &[u8]) -> bool
        ensures { MatchBool result ((k : ℕ) → slice_index group.now k ≡ 1 → line_has Open (line_at self.now.rows k) ≡ true) ((k : ℕ) × (slice_index group.now k ≡ 1) × (line_has Open (line_at self.now.rows k) ≡ false)) }
    {
        group
            .iter()
            .enumerate()
            .all(|(i, &mark)| mark != MARKED || self.is_open(i))
    }
}
