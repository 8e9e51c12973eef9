// Clause lists over lent runs and entries, as rules that force decisions.
#![tactic(auto)]

ghost use Rattle.std.specs.Prelude.{◌≡◌, ℕ, ◌+◌, ◌*◌, ◌<◌, ◌≤◌, List, [], length, ◌↔◌, IsTrue, IfOk, OnOk, OnErr};
ghost use Rattle.source.specs.Plans.{UpTo};
ghost use Rattle.closing.specs.Turns.{Turn};
ghost use Rattle.closing.specs.Sets.{holds, contrary, Codes};
ghost use Rattle.clauses.specs.Clauses.{ClausesOk, RunsFit, clause_at, one_clause, clause_forces, ClausePlan};
ghost use Rattle.clauses.specs.Sounds.{clause_sound, clause_based};
ghost use Rattle.clauses.specs.Listing.{number_of};

use closing::{Clash, Few, Rules, Turned, contrary_of, decide, entry_holds, exceptions};
use list::ClauseList;
use run::Run;
use source::WIDTH_MAX;

pub mod cases;
pub mod list;
pub mod run;

const CLAUSES_MAX: usize = 2048;

const ENTRIES_MAX: usize = 8192;

// Why clauses are not taken: a width, count, run or entry is outside its limits.
#[derive(Clone, Copy, Debug, PartialEq, Eq)]
pub enum ClauseRefusal {
    Limits = 28,
}

impl ClauseRefusal {
    pub fn number(self) -> u8
        ensures { result ≡ number_of self }
    {
        self as u8
    }
}

// Whether each run lies among n entries.
fn runs_fit(runs: &[Run], n: usize) -> bool
    ensures { IsTrue result ↔ RunsFit runs.now n }
{
    runs.iter().all(|run| run.end() <= n)
}

// Whether each entry names a statement below the width.
fn codes_fit(entries: &[u16], width: usize) -> bool
    requires { width ≤ 512 }
    ensures { IsTrue result ↔ Codes width entries.now }
{
    entries.iter().all(|&entry| (entry as usize) < 2 * width)
}

// Whether width, counts, runs and entries are within their limits.
fn list_fits(width: usize, runs: &[Run], entries: &[u16]) -> bool
    ensures { IsTrue result ↔ ClausesOk width runs.now entries.now }
{
    width <= WIDTH_MAX
        && runs.len() <= CLAUSES_MAX
        && entries.len() <= ENTRIES_MAX
        && runs_fit(runs, entries.len())
        && codes_fit(entries, width)
}

impl<'a, 'b> ClauseList<'a, 'b> {
    // The clauses lent, if they are within the limits.
    pub fn new(
        width: usize,
        runs: &'a [Run],
        entries: &'b [u16],
    ) -> Result<ClauseList<'a, 'b>, ClauseRefusal>
        ensures taken { IfOk result (λ list. ClausesOk width runs.now entries.now × (list.width ≡ width) × (list.runs.now ≡ runs.now) × (list.entries.now ≡ entries.now)) }
        ensures refused { OnErr result (¬ ClausesOk width runs.now entries.now) }
    {
        if list_fits(width, runs, entries) {
            Ok(ClauseList {
                width,
                runs,
                entries,
            })
        } else {
            Err(ClauseRefusal::Limits)
        }
    }

    // No statements and no clauses, to be filled by `lend`.
    pub fn empty() -> ClauseList<'a, 'b>
        ensures width { result.width ≡ 0 }
        ensures runs { result.runs.now ≡ [] }
        ensures entries { result.entries.now ≡ [] }
    {
        ClauseList {
            width: 0,
            runs: &[],
            entries: &[],
        }
    }

    // The clauses lent from now on; a refusal leaves those from before.
    pub fn lend(
        &mut self,
        width: usize,
        runs: &'a [Run],
        entries: &'b [u16],
    ) -> Result<(), ClauseRefusal>
        ensures taken { OnOk result (ClausesOk width runs.now entries.now × (self.new.width ≡ width) × (self.new.runs.now ≡ runs.now) × (self.new.entries.now ≡ entries.now)) }
        ensures refused { OnErr result ((¬ ClausesOk width runs.now entries.now) × (self.new ≡ self.old)) }
    {
        *self = ClauseList::new(width, runs, entries)?;
        Ok(())
    }

    // The entries of clause k.
    fn clause(&self, k: usize) -> &'b [u16]
        requires { k < length self.now.runs.now }
        ensures { result.now ≡ clause_at self.now.runs.now self.now.entries.now k }
    {
        let run = self.runs[k];
        &self.entries[run.first as usize..run.end()]
    }
}

// A clause with all entries but one contradicted forces that one.
fn clause_turn(p: &mut [u8], clause: &[u16]) -> Turned
    requires bytes { UpTo 2 p.old }
    requires codes { Codes (length p.old) clause.now }
    ensures { Turn (one_clause (length p.old) clause.now) 0 p.old p.new result }
{
    match exceptions(clause, |e| entry_holds(p, contrary_of(e))) {
        Few::Nothing => Err(Clash),
        Few::Only(e) => decide(p, e),
        Few::Several => Ok(false),
    }
}

impl<'a, 'b> Rules for ClauseList<'a, 'b> {
    ghost forces = { λ s. clause_forces s.width s.runs.now s.entries.now };

    ghost plan = { λ s p. ClausePlan s.width s.runs.now s.entries.now p };

    ghost sound = { λ s. clause_sound s.width s.runs.now s.entries.now s.sound };

    ghost based = { λ s. clause_based s.width s.runs.now s.entries.now s.sound };

    fn width(&self) -> usize {
        self.width
    }

    fn count(&self) -> usize {
        self.runs.len()
    }

    fn swift(&self) -> usize {
        self.runs.len()
    }

    fn turn(&self, p: &mut [u8], k: usize) -> Turned {
        clause_turn(p, self.clause(k))
    }
}
