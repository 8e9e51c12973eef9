// The checks of a sheet's calls, before its source is asked: of all rows that refuse a call, the first wins.
#![tactic(auto)]

ghost use Rattle.std.specs.Prelude.{◌≡◌, true, false, MatchResult};
ghost use Rattle.uses.specs.declared.SheetRefusal.TheVariants.{Unbegun};
ghost use Rattle.checks.specs.View.{view};
ghost use Rattle.checks.specs.Checks.{IsMarks, HasLine, MayBegin, MaySettle, MaySettleBy, MayPin, MayTell, MayTally};

use source::WIDTH_MAX;
use source::bytes::{MARKED, UNDECIDED, marks_any, up_to};
use table::line::Line;
use table::table::Table;
use technique::Technique;
use uses::{SheetRefusal, Tally, Way, Word};

mod technique;

// The table of a sheet, and the width that its source has.
#[derive(Clone, Copy)]
pub struct Checks<'a> {
    pub table: &'a Table,
    pub width: usize,
}

impl Checks<'_> {
    // That there is a byte for each statement, a mark or none.
    fn marks(&self, bytes: &[u8]) -> Result<(), SheetRefusal>
        ensures { IsMarks self.now.width bytes.now result }
    {
        if bytes.len() != self.width {
            return Err(SheetRefusal::Length);
        }
        if !up_to(bytes, MARKED) {
            return Err(SheetRefusal::Mark);
        }
        Ok(())
    }

    // That the table was begun, over the width that its source has.
    fn begun(&self) -> Result<(), SheetRefusal>
        ensures { MatchResult result (λ _. (view self.now.width self.now.table.now).begun ≡ true) (λ e. (e ≡ Unbegun) × ((view self.now.width self.now.table.now).begun ≡ false)) }
    {
        if !self.table.is_begun(self.width) {
            return Err(SheetRefusal::Unbegun);
        }
        Ok(())
    }

    // The line of a statement, where the table was begun.
    fn line(&self, statement: usize) -> Result<Line, SheetRefusal>
        ensures { HasLine self.now.width self.now.table.now statement result }
    {
        self.begun()?;
        self.table
            .rows()
            .get(statement)
            .copied()
            .ok_or(SheetRefusal::Statement)
    }

    pub fn may_begin(&self, candidates: &[u8]) -> Result<(), SheetRefusal>
        ensures { MayBegin self.now.width self.now.table.now candidates.now result }
    {
        self.marks(candidates)?;
        if self.width > WIDTH_MAX {
            return Err(SheetRefusal::Wide);
        }
        if self.begun().is_ok() {
            return Err(SheetRefusal::Begun);
        }
        Ok(())
    }

    pub fn may_settle(&self, group: &[u8]) -> Result<(), SheetRefusal>
        ensures { MaySettle self.now.width self.now.table.now group.now result }
    {
        self.marks(group)?;
        self.begun()?;
        if self.table.none_open() {
            return Err(SheetRefusal::NoneOpen);
        }
        if !marks_any(group) || !self.table.lines.marks_open(group) {
            return Err(SheetRefusal::Group);
        }
        Ok(())
    }

    // How many of the lowest open candidates the technique marks, at most.
    pub fn may_settle_by(&self, technique: &str, size: usize) -> Result<usize, SheetRefusal>
        ensures { MaySettleBy self.now.width self.now.table.now technique.now size result }
    {
        self.begun()?;
        if self.table.none_open() {
            return Err(SheetRefusal::NoneOpen);
        }
        technique
            .parse::<Technique>()?
            .limit(size, self.table.width())
    }

    // The way of a pin.
    pub fn may_pin(&self, statement: usize, way: u8) -> Result<Way, SheetRefusal>
        ensures { MayPin self.now.width self.now.table.now statement way result }
    {
        let way = Way::try_from(way)?;
        if self.line(statement)?.pin != UNDECIDED {
            return Err(SheetRefusal::Pinned);
        }
        Ok(way)
    }

    // The word of a candidate.
    pub fn may_tell(&self, statement: usize) -> Result<Word, SheetRefusal>
        ensures { MayTell self.now.width self.now.table.now statement result }
    {
        let line = self.line(statement)?;
        if !line.candidate {
            return Err(SheetRefusal::Candidate);
        }
        Ok(line.word)
    }

    // The tally of a begun sheet.
    pub fn may_tally(&self) -> Result<Tally, SheetRefusal>
        ensures { MayTally self.now.width self.now.table.now result }
    {
        self.begun()?;
        Ok(self.table.tally())
    }
}
