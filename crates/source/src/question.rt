// What is asked of a source.
ghost use Rattle.std.specs.Prelude.{◌≡◌, Ok, Err, MatchBool};
ghost use Rattle.source.specs.Plans.{Serves};
ghost use Rattle.source.specs.Asked.{Refused, Taken, Checked};
ghost use Rattle.source.specs.declared.Refusal.{Refusal as Cause};

use crate::bytes::{FAILS, MARKED, agrees, fails_marked, marks_any, up_to};
use crate::{Refusal, WIDTH_MAX};

// A plan that agrees with the pins and fails at a statement that the group marks, if it marks any.
#[derive(Clone, Copy)]
pub struct Question<'a> {
    pub pins: &'a [u8],
    pub group: &'a [u8],
}

impl<'a> Question<'a> {
    pub fn new(pins: &'a [u8], group: &'a [u8]) -> Self
        ensures pins { result.pins.now ≡ pins.now }
        ensures group { result.group.now ≡ group.now }
    {
        Question { pins, group }
    }

    // Whether the plan agrees with the pins and meets the group.
    pub fn is_served_by(self, plan: &[u8]) -> bool
        ensures { MatchBool result (Serves self.entry.pins.now self.entry.group.now plan.now) (Serves self.entry.pins.now self.entry.group.now plan.now → ⊥) }
    {
        agrees(self.pins, plan) && (!marks_any(self.group) || fails_marked(self.group, plan))
    }

    // The first refusal that applies to the question over `width` statements, in the order of their numbers: that one
    // exactly when its cause is there, and none exactly when the question is taken.
    pub fn check(self, width: usize, place: &[u8]) -> Result<(), Refusal>
        ensures cause { Checked width self.entry.pins.now self.entry.group.now place.now result }
        ensures only { (e : Cause) → Refused width self.entry.pins.now self.entry.group.now place.now e → result ≡ Err e }
        ensures taken { Taken width self.entry.pins.now self.entry.group.now place.now → result ≡ Ok tt }
    {
        self.first_cause(width, place)
    }

    // The same, by its cause alone.
    fn first_cause(self, width: usize, place: &[u8]) -> Result<(), Refusal>
        ensures { Checked width self.entry.pins.now self.entry.group.now place.now result }
    {
        if self.pins.len() != width || self.group.len() != width || place.len() != width {
            return Err(Refusal::Length);
        }
        if !up_to(self.pins, FAILS) {
            return Err(Refusal::Value);
        }
        if !up_to(self.group, MARKED) {
            return Err(Refusal::Mark);
        }
        if width > WIDTH_MAX {
            return Err(Refusal::Wide);
        }
        Ok(())
    }
}
