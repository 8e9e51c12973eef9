// The plans of a base that meet a group, as a base over it.
#![tactic(auto)]

ghost use Rattle.std.specs.Prelude.{◌≡◌, ◌<◌, length, MatchBool};
ghost use Rattle.source.specs.Plans.{Partial};
ghost use Rattle.narrow.specs.Meeting.{MeetingPlan, CanFail, SomeCanFail, MayMeet, narrowed, CutStands};
ghost use Rattle.narrow.specs.Meetings.{meeting_lawful};

use base::{Base, Outcome};
use source::bytes::{FAILS, MARKED, UNDECIDED, fails_marked, marks_any};
use source::{Refusal, WIDTH_MAX};

// A base and a group: its plans are those of the base that meet the group, all of them where the group marks nothing.
#[derive(Drop)]
pub struct Meeting<'a, 'b, B> {
    base: &'a B,
    group: &'b [u8],
}

impl<'a, 'b, B> Meeting<'a, 'b, B> {
    pub fn new(base: &'a B, group: &'b [u8]) -> Meeting<'a, 'b, B>
        ensures base { result.base.now ≡ base.now }
        ensures group { result.group.now ≡ group.now }
    {
        Meeting { base, group }
    }
}

// Whether the statement is undecided, and the base below extends the partial with it failing.
fn can_fail<B: Base>(base: &B, partial: &[u8], k: usize) -> bool
    requires { Partial (B.wide base.now) partial.now }
    ensures { MatchBool result ((k < length partial.now) × CanFail (B.outcome base.now) partial.now k) ((k < length partial.now) × CanFail (B.outcome base.now) partial.now k → ⊥) }
{
    if partial.get(k) != Some(&UNDECIDED) {
        return false;
    }
    let mut trial = [UNDECIDED; WIDTH_MAX];
    let trial = &mut trial[..partial.len()];
    trial.copy_from_slice(partial);
    trial[k] = FAILS;
    matches!(base.extend(trial), Ok(Outcome::Fits))
}

// Whether a marked statement can still fail.
fn some_can_fail<B: Base>(base: &B, group: &[u8], partial: &[u8]) -> bool
    requires { Partial (B.wide base.now) partial.now }
    ensures { MatchBool result (SomeCanFail (B.outcome base.now) group.now partial.now) (SomeCanFail (B.outcome base.now) group.now partial.now → ⊥) }
{
    group
        .iter()
        .enumerate()
        .any(|(k, &mark)| mark == MARKED && can_fail(base, partial, k))
}

// Whether the group is met, or a marked statement can still fail.
fn may_meet<B: Base>(base: &B, group: &[u8], partial: &[u8]) -> bool
    requires { Partial (B.wide base.now) partial.now }
    ensures { MatchBool result (MayMeet (B.outcome base.now) group.now partial.now) (MayMeet (B.outcome base.now) group.now partial.now → ⊥) }
{
    !marks_any(group) || fails_marked(group, partial) || some_can_fail(base, group, partial)
}

impl<'a, 'b, B: Base> Base for Meeting<'a, 'b, B> {
    ghost wide = { λ s. B.Base.wide s.base.now };

    ghost plan = { λ s p. MeetingPlan (B.Base.plan s.base.now) s.group.now p };

    ghost outcome = { λ s q. narrowed (B.Base.outcome s.base.now) s.group.now (B.Base.outcome s.base.now q) };

    ghost lawful = { λ s. meeting_lawful (B.Base.wide s.base.now) (B.Base.plan s.base.now) (B.Base.outcome s.base.now) s.group.now (B.Base.lawful s.base.now) };

    fn width(&self) -> usize {
        self.base.width()
    }

    // Extends a copy, so that a clash leaves the partial; the base below refuses its bytes.
    fn extend(&self, partial: &mut [u8]) -> Result<Outcome, Refusal> {
        if partial.len() != self.base.width() {
            return Err(Refusal::Length);
        }
        let mut extended = [UNDECIDED; WIDTH_MAX];
        let extended = &mut extended[..partial.len()];
        extended.copy_from_slice(partial);
        match self.base.extend(extended)? {
            Outcome::Fits if may_meet(self.base, self.group, extended) => {
                partial.copy_from_slice(extended);
                Ok(Outcome::Fits)
            }
            Outcome::Fits | Outcome::Clash => Ok(Outcome::Clash),
        }
    }
}

// A cut drops no plan that meets the group.
pub fn cut_stands<B: Base>(base: &B, group: &[u8])
    ensures { CutStands (B.wide base.now) (B.plan base.now) (B.outcome base.now) group.now }
{}
