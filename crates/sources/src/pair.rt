// Two sources joined into one.
ghost use Rattle.std.specs.Prelude.{◌≡◌, ◌+◌, ◌≤◌, length};
ghost use Rattle.source.specs.Plans.{UpTo};
ghost use Rattle.sources.specs.Joined.{joined_width, Joining, Posed, AskedBoth, AskedJoining};
ghost use Rattle.sources.specs.Shares.{Blank, Shared};

use source::asking::finds;
use source::bytes::{UNDECIDED, UNMARKED, marks_any};
use source::{Answer, Question, Refusal, Source, WIDTH_MAX};

// What a source reports that has more than WIDTH_MAX statements.
const TOO_WIDE: usize = WIDTH_MAX + 1;

// The statements of the first source, then those of the second; every plan of the one with every plan of the other.
#[derive(Drop)]
pub struct Pair<F, S> {
    first: F,
    second: S,
}

// Which of two plans joined has to fail at a statement that the group marks.
#[derive(Clone, Copy)]
enum Share {
    First,
    Second,
    Either,
}

impl<F: Source, S: Source> Pair<F, S> {
    pub fn new(first: F, second: S) -> Self
        ensures first { result.first ≡ first }
        ensures second { result.second ≡ second }
    {
        Pair { first, second }
    }
}

impl<F: Source, S: Source> Source for Pair<F, S> {
    ghost wide = { λ s. joined_width (F.Source.wide s.first) (S.Source.wide s.second) };

    ghost plan = { λ s p. Joining (F.Source.wide s.first) (F.Source.plan s.first) (S.Source.wide s.second) (S.Source.plan s.second) p };

    fn width(&self) -> usize {
        (self.first.width() + self.second.width()).min(TOO_WIDE)
    }

    fn question(&self, question: Question<'_>, place: &mut [u8]) -> Result<Answer, Refusal> {
        let width = self.width();
        question.check(width, place)?;
        let Some(plan) = self.join(question) else {
            return Ok(Answer::Nothing);
        };
        place.copy_from_slice(&plan[..width]);
        Ok(Answer::Plan)
    }
}

impl<F: Source, S: Source> Pair<F, S> {
    // Finds a joining that serves: one of its plans fails at a marked statement of its half, and both agree with the pins.
    fn join(&self, question: Question<'_>) -> Option<[u8; WIDTH_MAX]>
        requires { Posed (F.Source.wide self.now.first + S.Source.wide self.now.second) question.pins.now question.group.now }
        ensures { AskedJoining (F.Source.wide self.now.first) (F.Source.plan self.now.first) (S.Source.wide self.now.second) (S.Source.plan self.now.second) question.entry.pins.now question.entry.group.now result }
    {
        let Question { pins, group } = question;
        let unmarked = unmarked();
        let (first_group, second_group) = group.split_at(self.first.width());
        let first_unmarked = &unmarked[..first_group.len()];
        let second_unmarked = &unmarked[..second_group.len()];
        match share_of(first_group, second_group) {
            Share::First => self.ask_both(pins, first_group, second_unmarked),
            Share::Second => self.ask_both(pins, first_unmarked, second_group),
            Share::Either => self
                .ask_both(pins, first_unmarked, second_group)
                .or_else(|| self.ask_both(pins, first_group, second_unmarked)),
        }
    }

    // Asks both sources with the pins of their halves and a group for each: their plans, joined in the first bytes, if
    // both have one.
    fn ask_both(
        &self,
        pins: &[u8],
        first_group: &[u8],
        second_group: &[u8],
    ) -> Option<[u8; WIDTH_MAX]>
        requires narrow { F.Source.wide self.now.first + S.Source.wide self.now.second ≤ 512 }
        requires pins { (length pins.now ≡ F.Source.wide self.now.first + S.Source.wide self.now.second) × UpTo 2 pins.now }
        requires first { (length first_group.now ≡ F.Source.wide self.now.first) × UpTo 1 first_group.now }
        requires second { (length second_group.now ≡ S.Source.wide self.now.second) × UpTo 1 second_group.now }
        ensures { AskedBoth (F.Source.wide self.now.first) (F.Source.plan self.now.first) (S.Source.wide self.now.second) (S.Source.plan self.now.second) pins.now first_group.now second_group.now result }
    {
        let (cut, width) = (self.first.width(), pins.len());
        let (first_pins, second_pins) = pins.split_at(cut);
        let first = Question {
            pins: first_pins,
            group: first_group,
        };
        let second = Question {
            pins: second_pins,
            group: second_group,
        };
        let mut found = [UNDECIDED; WIDTH_MAX];
        if finds(&self.first, first, &mut found[..cut])
            && finds(&self.second, second, &mut found[cut..width])
        {
            Some(found)
        } else {
            None
        }
    }
}

// Who meets the group, by which of its halves marks any statement. Where none does, the first plan is asked to meet its
// half, which demands nothing.
fn share_of(first_group: &[u8], second_group: &[u8]) -> Share
    ensures { Shared first_group.now second_group.now result }
{
    // Stays: the first half is read only where the second marks any, so that an empty group is passed over once.
    if !marks_any(second_group) {
        return Share::First;
    }
    if !marks_any(first_group) {
        return Share::Second;
    }
    Share::Either
}

// A group that marks nothing.
fn unmarked() -> [u8; WIDTH_MAX]
    ensures { Blank result }
{
    [UNMARKED; WIDTH_MAX]
}
