// Plans that are listed, row after row, in lent memory.
ghost use Rattle.std.specs.Prelude.{◌≡◌, ◌<◌, ◌↔◌, [], length, IfOk, IsOk, MatchOption};
ghost use Rattle.source.specs.Plans.{Of};
ghost use Rattle.source.specs.Asked.{Asked};
ghost use Rattle.sources.specs.Rows.{Among, FirstServing, GivesFirst, Listable, Lending, NoneServing, row_at};

use crate::refusal::ListingRefusal;
use source::bytes::{FAILS, HOLDS};
use source::{Answer, Question, Refusal, Source, WIDTH_MAX};

// The most plans that may be listed.
pub const PLANS_MAX: usize = 4096;

// `count` plans of `width` bytes each.
// Stays: the rows are lent as bytes, and at width 0 only the count says how many plans there are.
#[derive(Drop)]
pub struct Listed<'a> {
    width: usize,
    count: usize,
    rows: &'a [u8],
    ghost listable: { Listable width count rows.now },
}

impl<'a> Listed<'a> {
    // No statements and no plans: what plans are lent to.
    pub fn none() -> Self
        ensures width { result.width ≡ 0 }
        ensures count { result.count ≡ 0 }
        ensures rows { result.rows.now ≡ [] }
    {
        Listed {
            width: 0,
            count: 0,
            rows: &[],
        }
    }

    // Lists the rows lent, if they may be listed.
    pub fn new(width: usize, count: usize, rows: &'a [u8]) -> Result<Self, ListingRefusal>
        ensures listable { IsOk result ↔ Listable width count rows.now }
        ensures fields { IfOk result (λ s. (s.width ≡ width) × (s.count ≡ count) × (s.rows.now ≡ rows.now)) }
    {
        if width <= WIDTH_MAX
            && count <= PLANS_MAX
            && rows.len() == count * width
            && rows.iter().all(|&byte| byte == HOLDS || byte == FAILS)
        {
            Ok(Listed { width, count, rows })
        } else {
            Err(ListingRefusal::Malformed)
        }
    }

    // Lists the rows lent from now on; a refusal leaves the listing as it was.
    pub fn lend(&mut self, width: usize, count: usize, rows: &'a [u8]) -> Result<(), ListingRefusal>
        ensures { Lending width count rows.now self.old.width self.old.count self.old.rows.now result self.new.width self.new.count self.new.rows.now }
    {
        *self = Listed::new(width, count, rows)?;
        Ok(())
    }

    // The number of the first row that agrees with the pins and meets the group.
    pub fn first_serving(&self, question: Question<'_>) -> Option<usize>
        ensures { MatchOption result (NoneServing self.now.width self.now.count self.now.rows.now question.entry.pins.now question.entry.group.now) (λ i. FirstServing self.now.width self.now.count self.now.rows.now question.entry.pins.now question.entry.group.now i) }
    {
        (0..self.count).find(|&i| question.is_served_by(self.row(i)))
    }

    // Row i.
    fn row(&self, i: usize) -> &[u8]
        requires { i < self.now.count }
        ensures value { result.now ≡ row_at self.now.width self.now.rows.now i }
        ensures len { length result.now ≡ self.now.width }
    {
        let from = i * self.width;
        &self.rows[from..from + self.width]
    }
}

impl Source for Listed<'_> {
    ghost wide = { λ s. s.width };

    ghost plan = { λ s p. Among s.width s.count s.rows.now p };

    fn width(&self) -> usize {
        self.width
    }

    // Besides what every source promises: the plan given is the first row that serves.
    fn question(&self, question: Question<'_>, place: &mut [u8]) -> Result<Answer, Refusal>
        ensures asked { Asked self.now.width (Of self.now.width (Among self.now.width self.now.count self.now.rows.now)) question.entry.pins.now question.entry.group.now place.old result place.new }
        ensures gives_first { GivesFirst self.now.width self.now.count self.now.rows.now question.entry.pins.now question.entry.group.now result place.new }
    {
        question.check(self.width, place)?;
        let Some(i) = self.first_serving(question) else {
            return Ok(Answer::Nothing);
        };
        place.copy_from_slice(self.row(i));
        Ok(Answer::Plan)
    }
}
