// A source out of any base: the first plan that serves.
#![tactic(auto)]

ghost use Rattle.std.specs.Prelude.{◌≡◌};
ghost use Rattle.source.specs.Plans.{Of};
ghost use Rattle.source.specs.Asked.{Asked};
ghost use Rattle.search.specs.Asking.{FirstAsked, OnlyFirst};

use base::Base;
use narrow::Meeting;
use source::{Answer, Question, Refusal, Source};
use walk::first_agreeing;

// A base that can be asked for plans.
#[derive(Drop)]
pub struct Search<B> {
    pub base: B,
}

impl<B: Base> Search<B> {
    // The first plan that agrees with the pins and meets the group goes into the place; if there is none, or the
    // question is refused, the place stays as it was.
    pub fn first_plan(&self, question: Question<'_>, place: &mut [u8]) -> Result<Answer, Refusal>
        ensures first { FirstAsked (B.Base.wide self.now.base) (Of (B.Base.wide self.now.base) (B.Base.plan self.now.base)) question.entry.pins.now question.entry.group.now place.old result place.new }
        ensures only { OnlyFirst (B.Base.wide self.now.base) (Of (B.Base.wide self.now.base) (B.Base.plan self.now.base)) question.entry.pins.now question.entry.group.now place.old result place.new }
    {
        first_of(&self.base, question, place)
    }
}

impl<B: Base> Source for Search<B> {
    ghost wide = { λ s. B.Base.wide s.base };

    ghost plan = { λ s. B.Base.plan s.base };

    fn width(&self) -> usize {
        self.base.width()
    }

    // The plan given is the first that serves.
    #[tactic(auto, using(crate::proofs::Asking::first_asked))]
    fn question(&self, question: Question<'_>, place: &mut [u8]) -> Result<Answer, Refusal>
        ensures asked { Asked (B.Base.wide self.now.base) (Of (B.Base.wide self.now.base) (B.Base.plan self.now.base)) question.entry.pins.now question.entry.group.now place.old result place.new }
        ensures first { FirstAsked (B.Base.wide self.now.base) (Of (B.Base.wide self.now.base) (B.Base.plan self.now.base)) question.entry.pins.now question.entry.group.now place.old result place.new }
    {
        self.first_plan(question, place)
    }
}

// The first plan of a base that serves, or the refusal: a walk over the plans that meet the group, in which a branch
// is cut as soon as no marked statement can fail there any more.
fn first_of<B: Base>(base: &B, question: Question<'_>, place: &mut [u8]) -> Result<Answer, Refusal>
    ensures { FirstAsked (B.wide base.now) (Of (B.wide base.now) (B.plan base.now)) question.entry.pins.now question.entry.group.now place.old result place.new }
{
    question.check(base.width(), place)?;
    first_agreeing(&Meeting::new(base, question.group), question.pins, place)
}
