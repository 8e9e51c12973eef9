// The certainty sheet over any source: which candidates hold in every plan, promised step by step and never taken back.
#![tactic(auto)]

ghost use Rattle.std.specs.Prelude.{◌≡◌, ℕ, ◌+◌, ◌<◌, ◌≤◌, true, MatchOption, MatchResult, nat_eq, slice_index};
ghost use Rattle.source.specs.Plans.{Of, UpTo};
ghost use Rattle.uses.specs.declared.SheetRefusal.TheVariants.{NoPlan};
ghost use Rattle.uses.specs.declared.Word.TheVariants.{Open};
ghost use Rattle.uses.specs.Model.{Fresh, begin, settle, settle_by, pin, tell, tally, counted};
ghost use Rattle.uses.specs.Step.{Rest, Settles};
ghost use Rattle.table.specs.Blank.{line_at};
ghost use Rattle.table.specs.Lineup.{width_of, byte_in, settled_line};
ghost use Rattle.checks.specs.View.{view};
ghost use Rattle.sheet.specs.View.{done_of, settled_of, told_of, tallied_of, Steps, LawStarts, LawContinues};
ghost use Rattle.sheet.specs.Asks.{Found, NotFound, PinnedBy};

use ask::ask;
use checks::Checks;
use source::Source;
use source::bytes::UNDECIDED;
use table::groups::widened;
use table::line::LINES;
use table::table::Table;

mod ask;

pub use uses::{SheetRefusal, Tally, Way, Word};

#[derive(Drop)]
pub struct Sheet<S: Source> {
    source: S,
    table: Table,
}

impl<S: Source> Sheet<S> {
    // A sheet over the source, not begun yet.
    pub fn new(source: S) -> Self
        ensures source { result.source ≡ source }
        ensures fresh { Fresh (view (S.wide source) result.table) }
        ensures law { LawStarts (S.wide source) (S.plan source) result.table }
    {
        Sheet {
            source,
            table: Table::new(),
        }
    }

    // Begins the sheet with the candidates, a mark for each statement. Those that fail in the first plan found are loose.
    pub fn begin(&mut self, candidates: &[u8]) -> Result<(), SheetRefusal>
        ensures source { self.new.source ≡ self.old.source }
        ensures step { Steps (S.wide self.old.source) (S.plan self.old.source) self.old.table (begin candidates.now) (done_of result) self.new.table }
        ensures law { LawContinues (S.wide self.old.source) (S.plan self.old.source) self.old.table (begin candidates.now) (done_of result) self.new.table }
    {
        self.checks().may_begin(candidates)?;
        let marks = widened(candidates);
        let plan = self.plan(&[UNDECIDED; LINES], &[0; LINES])?;
        self.table.begin(self.source.width(), &marks, &plan);
        Ok(())
    }

    // Settles a group of open candidates; how many ceased to be open.
    pub fn settle(&mut self, group: &[u8]) -> Result<usize, SheetRefusal>
        ensures source { self.new.source ≡ self.old.source }
        ensures step { Steps (S.wide self.old.source) (S.plan self.old.source) self.old.table (settle group.now) (settled_of result) self.new.table }
        ensures law { LawContinues (S.wide self.old.source) (S.plan self.old.source) self.old.table (settle group.now) (settled_of result) self.new.table }
    {
        self.checks().may_settle(group)?;
        Ok(self.settle_marks(&widened(group)))
    }

    // Settles by a technique: "over" all open candidates, "under" the lowest one, "chunk" the lowest ones up to the size.
    pub fn settle_by(&mut self, technique: &str, size: usize) -> Result<usize, SheetRefusal>
        ensures source { self.new.source ≡ self.old.source }
        ensures step { Steps (S.wide self.old.source) (S.plan self.old.source) self.old.table (settle_by technique.now size) (settled_of result) self.new.table }
        ensures law { LawContinues (S.wide self.old.source) (S.plan self.old.source) self.old.table (settle_by technique.now size) (settled_of result) self.new.table }
    {
        let limit = self.checks().may_settle_by(technique, size)?;
        let marks = self.table.lowest(limit);
        Ok(self.settle_marks(&marks))
    }

    // Pins a statement: way 1 says that it holds, 2 that it fails. Kept if some plan agrees with all pins then; every word but certain is read anew.
    pub fn pin(&mut self, statement: usize, way: u8) -> Result<(), SheetRefusal>
        ensures source { self.new.source ≡ self.old.source }
        ensures step { Steps (S.wide self.old.source) (S.plan self.old.source) self.old.table (pin statement way) (done_of result) self.new.table }
        ensures law { LawContinues (S.wide self.old.source) (S.plan self.old.source) self.old.table (pin statement way) (done_of result) self.new.table }
    {
        let way = self.checks().may_pin(statement, way)?.number();
        let pins = self.table.pins_with(statement, way);
        self.pin_lines(&pins, &[0; LINES], statement, way)?;
        Ok(())
    }

    // The word of a candidate.
    pub fn tell(&self, statement: usize) -> Result<Word, SheetRefusal>
        ensures step { Steps (S.wide self.now.source) (S.plan self.now.source) self.now.table (tell statement) (told_of result) self.now.table }
        ensures law { LawContinues (S.wide self.now.source) (S.plan self.now.source) self.now.table (tell statement) (told_of result) self.now.table }
    {
        self.checks().may_tell(statement)
    }

    // How many candidates are open, certain and loose.
    pub fn tally(&self) -> Result<Tally, SheetRefusal>
        ensures step { Steps (S.wide self.now.source) (S.plan self.now.source) self.now.table tally (tallied_of result) self.now.table }
        ensures law { LawContinues (S.wide self.now.source) (S.plan self.now.source) self.now.table tally (tallied_of result) self.now.table }
    {
        self.checks().may_tally()
    }

    fn checks(&self) -> Checks<'_>
        ensures table { result.table.now ≡ self.now.table }
        ensures width { result.width ≡ S.wide self.now.source }
    {
        Checks {
            table: &self.table,
            width: self.source.width(),
        }
    }

    // Questions with the pins and the group, which is empty in every call, and wants a plan.
    // Stays: the group is lent, here and in the two below, so that another one is refused for what it asks.
    fn plan(&self, pins: &[u8; LINES], group: &[u8; LINES]) -> Result<[u8; LINES], SheetRefusal>
        requires narrow { S.wide self.now.source ≤ 512 }
        requires pins { UpTo 2 pins.now }
        requires group { UpTo 1 group.now }
        ensures { MatchResult result (λ plan. Found (S.wide self.now.source) (Of (S.wide self.now.source) (S.plan self.now.source)) pins.now group.now plan) (λ e. (e ≡ NoPlan) × NotFound (S.wide self.now.source) (Of (S.wide self.now.source) (S.plan self.now.source)) pins.now group.now) }
    {
        ask(&self.source, pins, group).ok_or(SheetRefusal::NoPlan)
    }

    // Questions with the pins and the empty group `none`, and has the lines take the pin if a plan comes, which it gives.
    fn pin_lines(
        &mut self,
        pins: &[u8; LINES],
        none: &[u8; LINES],
        statement: usize,
        way: u8,
    ) -> Result<[u8; LINES], SheetRefusal>
        requires narrow { S.wide self.old.source ≤ 512 }
        requires pins { UpTo 2 pins.now }
        requires none { UpTo 1 none.now }
        requires inside { statement < width_of self.old.table.over }
        requires way { way ≤ 2 }
        ensures source { self.new.source ≡ self.old.source }
        ensures asked { MatchResult result (λ plan. Found (S.wide self.old.source) (Of (S.wide self.old.source) (S.plan self.old.source)) pins.now none.now plan × PinnedBy self.old.table statement way plan self.new.table) (λ e. (e ≡ NoPlan) × NotFound (S.wide self.old.source) (Of (S.wide self.old.source) (S.plan self.old.source)) pins.now none.now × (self.new.table ≡ self.old.table)) }
    {
        let plan = self.plan(pins, none)?;
        self.table.repin(statement, way, &plan);
        Ok(plan)
    }

    // Questions with the pins and the group `marks`, and has the lines settle by the answer, which it gives.
    fn settle_lines(&mut self, pins: &[u8; LINES], marks: &[u8; LINES]) -> Option<[u8; LINES]>
        requires narrow { S.wide self.old.source ≤ 512 }
        requires pins { UpTo 2 pins.now }
        requires marks { UpTo 1 marks.now }
        ensures source { self.new.source ≡ self.old.source }
        ensures over { self.new.table.over ≡ self.old.table.over }
        ensures asked { MatchOption result (NotFound (S.wide self.old.source) (Of (S.wide self.old.source) (S.plan self.old.source)) pins.now marks.now) (λ plan. Found (S.wide self.old.source) (Of (S.wide self.old.source) (S.plan self.old.source)) pins.now marks.now plan) }
        ensures lines { (k : ℕ) → line_at self.new.table.lines.rows k ≡ settled_line (byte_in result k) (line_at self.old.table.lines.rows k) (slice_index marks.now k) }
    {
        let plan = ask(&self.source, pins, marks);
        self.table.settle(&plan, marks);
        plan
    }

    // Questions with the pins so far and the group `marks`; how many ceased to be open.
    fn settle_marks(&mut self, marks: &[u8; LINES]) -> usize
        requires begun { (view (S.wide self.old.source) self.old.table).begun ≡ true }
        requires marks { UpTo 1 marks.now }
        requires some { (k : ℕ) × (slice_index marks.now k ≡ 1) × (k < S.wide self.old.source) }
        ensures source { self.new.source ≡ self.old.source }
        ensures rest { Rest (S.wide self.old.source) (Of (S.wide self.old.source) (S.plan self.old.source)) (view (S.wide self.old.source) self.old.table) (view (S.wide self.old.source) self.new.table) }
        ensures settles { Settles (S.wide self.old.source) (Of (S.wide self.old.source) (S.plan self.old.source)) (view (S.wide self.old.source) self.old.table) (λ k. nat_eq (slice_index marks.now k) 1) (view (S.wide self.old.source) self.new.table) }
        ensures count { result + counted (view (S.wide self.old.source) self.new.table) Open (S.wide self.old.source) ≡ counted (view (S.wide self.old.source) self.old.table) Open (S.wide self.old.source) }
    {
        let before = self.table.count(Word::Open);
        let pins = self.table.lines.pins();
        let _ = self.settle_lines(&pins, marks);
        before - self.table.count(Word::Open)
    }
}
