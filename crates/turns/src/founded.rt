// Unfounded: every statement of an unfounded set fails. The founded statements are marked first.
ghost use Rattle.std.specs.Prelude.{◌≡◌, ℕ, Bool, ◌+◌, ◌*◌, ◌<◌, ◌≤◌, true, false, length, slice_index_or};
ghost use Rattle.std.specs.List.{Contains};
ghost use Rattle.source.specs.Plans.{UpTo, Partial};
ghost use Rattle.closing.specs.Sets.{holds, Codes};
ghost use Rattle.rulebook.specs.Rows.{blank};
ghost use Rattle.turns.specs.Meaning.{book_of};
ghost use Rattle.turns.specs.Table.{marked, BodyFounded, MarkTurn, MarkPass, Never, RowDone, LawTurn, AllOf, FailAt, UnfoundedFail};

use crate::table::Table;
use crate::{failing, is_contradicted};
use closing::{Turned, decide};
use rulebook::NAMES_MAX;
use rulebook::row::RuleRow;

// Whether a body is not cancelled and all its plain entries are marked.
fn body_founded(p: &[u8], marks: &[bool], body: &[u16]) -> bool
    requires wide { length marks.now ≡ length p.now }
    requires codes { Codes (length p.now) body.now }
    ensures { BodyFounded p.now marks.now body.now result }
{
    body.iter().all(|&e| !is_contradicted(p, e) && (e % 2 == 1 || marks[(e / 2) as usize]))
}

// Marks the head of a row, if the row founds it; whether it was marked now.
fn found_row(table: &Table, p: &[u8], marks: &mut [bool], row: RuleRow) -> bool
    requires row { Contains table.now.rows.now row }
    requires wide { length p.now ≡ table.now.width }
    requires marked { length marks.old ≡ table.now.width }
    ensures { MarkTurn p.now table.now.rows.now table.now.entries.now row marks.old marks.new result }
{
    let Some(s) = table.head(row) else {
        return false;
    };
    if marks[s] || !body_founded(p, marks, table.body(row)) {
        return false;
    }
    marks[s] = true;
    true
}

// Marks what each row founds, once through; whether anything was marked.
fn found_pass(table: &Table, p: &[u8], marks: &mut [bool]) -> bool
    requires wide { length p.now ≡ table.now.width }
    requires marked { length marks.old ≡ table.now.width }
    requires never { Never (book_of (length p.now) table.now.rows.now table.now.entries.now) (holds p.now) marks.old }
    ensures { MarkPass p.now table.now.rows.now table.now.entries.now marks.old marks.new result }
{
    let mut found = false;
    for row in table.rows {
        found |= found_row(table, p, marks, *row);
    }
    found
}

// Marks all founded statements.
fn found_all(table: &Table, p: &[u8], marks: &mut [bool])
    requires wide { length p.now ≡ table.now.width }
    requires marked { length marks.old ≡ table.now.width }
    requires never { Never (book_of (length p.now) table.now.rows.now table.now.entries.now) (holds p.now) marks.old }
    ensures never { Never (book_of (length p.now) table.now.rows.now table.now.entries.now) (holds p.now) marks.new }
    ensures done { (k : ℕ) → k < length table.now.rows.now → RowDone p.now marks.new (slice_index_or table.now.rows.now k blank) table.now.entries.now }
{
    'passes: while found_pass(table, p, marks) {}
}

// Makes a statement fail, if it is not founded.
fn fail_unfounded(p: &mut [u8], s: usize, founded: bool) -> Turned
    requires narrow { length p.old ≤ 512 }
    requires bytes { UpTo 2 p.old }
    requires at { s < length p.old }
    ensures { LawTurn (λ C. founded ≡ false → C (2 * s + 1) ≡ true) p.old p.new result }
{
    if founded {
        Ok(false)
    } else {
        decide(p, failing(s))
    }
}

// Makes every statement that is not marked fail.
// Stays: a loop beside that of hold_body, since no clause can range over the laws of the turns that one loop would take.
fn fail_unmarked(p: &mut [u8], marks: &[bool]) -> Turned
    requires narrow { length p.old ≤ 512 }
    requires wide { length marks.now ≡ length p.old }
    requires bytes { UpTo 2 p.old }
    ensures { LawTurn (AllOf (FailAt marks.now) (length marks.now)) p.old p.new result }
{
    let mut changed = false;
    for (s, &founded) in marks.iter().enumerate() {
        changed |= fail_unfounded(p, s, founded)?;
    }
    Ok(changed)
}

// Every statement of an unfounded set fails; no mark is set before.
fn unfounded_with(table: &Table, p: &mut [u8], marks: &mut [bool]) -> Turned
    requires partial { Partial table.now.width p.old }
    requires wide { length marks.old ≡ table.now.width }
    requires clear { (s : ℕ) → marked marks.old s ≡ false }
    ensures { LawTurn (UnfoundedFail (book_of (length p.old) table.now.rows.now table.now.entries.now)) p.old p.new result }
{
    found_all(table, p, marks);
    fail_unmarked(p, marks)
}

impl<'a> Table<'a> {
    ghost use Rattle.turns.specs.Meaning.{book_at};

    // Every statement of an unfounded set fails.
    pub fn unfounded_step(&self, p: &mut [u8]) -> Turned
        requires { Partial self.now.width p.old }
        ensures { LawTurn (UnfoundedFail (book_at self.now)) p.old p.new result }
    {
        let mut marks = [false; NAMES_MAX];
        unfounded_with(self, p, &mut marks[..self.width])
    }
}
