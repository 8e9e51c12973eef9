// Questions put to the source of a sheet.
ghost use Rattle.std.specs.Prelude.{◌≤◌, MatchOption};
ghost use Rattle.source.specs.Plans.{Of, UpTo};
ghost use Rattle.sheet.specs.Asks.{Found, NotFound};

use source::asking::finds;
use source::bytes::UNDECIDED;
use source::{Question, Source};
use table::line::LINES;

// Asks with tables of 512 bytes: a plan that serves, in the first bytes, or there is none.
pub fn ask<S: Source>(source: &S, pins: &[u8; LINES], group: &[u8; LINES]) -> Option<[u8; LINES]>
    requires narrow { S.wide source.now ≤ 512 }
    requires pins { UpTo 2 pins.now }
    requires group { UpTo 1 group.now }
    ensures { MatchOption result (NotFound (S.wide source.now) (Of (S.wide source.now) (S.plan source.now)) pins.now group.now) (λ plan. Found (S.wide source.now) (Of (S.wide source.now) (S.plan source.now)) pins.now group.now plan) }
{
    let width = source.width();
    let question = Question {
        pins: &pins[..width],
        group: &group[..width],
    };
    let mut place = [UNDECIDED; LINES];
    // Stays: an `if`, since `then_some` takes the plan by value, and it would be copied twice more.
    if finds(source, question, &mut place[..width]) {
        Some(place)
    } else {
        None
    }
}
