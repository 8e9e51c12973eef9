// Asking a source where only a plan counts.
ghost use Rattle.source.specs.Plans.{Of};
ghost use Rattle.source.specs.Asked.{Finds};

use crate::{Answer, Question, Source};

// Whether the source has a plan that serves, now in the place. A question that is refused finds none.
pub fn finds<S: Source>(source: &S, question: Question<'_>, place: &mut [u8]) -> bool
    ensures { Finds (S.wide source.now) (Of (S.wide source.now) (S.plan source.now)) question.entry.pins.now question.entry.group.now place.old result place.new }
{
    source.question(question, place) == Ok(Answer::Plan)
}
