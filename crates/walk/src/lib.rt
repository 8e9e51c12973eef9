// The first plan of any base that agrees with pins, found by a walk over the base's extensions.
#![tactic(auto)]

ghost use Rattle.walk.specs.Finding.{FirstAgreeing};

use base::{Base, check};
use source::bytes::UNDECIDED;
use source::{Answer, Refusal, WIDTH_MAX};
use steps::run;

mod memory;
mod steps;

// The first plan that agrees with the pins goes into the place; if there is none, or the pins or the place do not fit
// the base, the place stays as it was.
pub fn first_agreeing<B: Base>(base: &B, pins: &[u8], place: &mut [u8]) -> Result<Answer, Refusal>
    ensures { FirstAgreeing (B.wide base.now) (B.plan base.now) pins.now place.old result place.new }
{
    let width = base.width();
    if place.len() != width {
        return Err(Refusal::Length);
    }
    check(width, pins)?;
    let mut partial = [UNDECIDED; WIDTH_MAX];
    let partial = &mut partial[..width];
    partial.copy_from_slice(pins);
    let answer = run(base, partial)?;
    if answer == Answer::Plan {
        place.copy_from_slice(partial);
    }
    Ok(answer)
}
