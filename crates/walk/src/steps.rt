// The walk over the extensions of any base: depth first, the lowest undecided statement, failing first.
ghost use Rattle.std.specs.Prelude.{◌≡◌, ◌<◌, ◌∷◌, MatchOption, length};
ghost use Rattle.source.specs.Plans.{Partial};
ghost use Rattle.walk.specs.Turning.{Decided, Lowest, Walks, waiting, Turns, Ran};

use crate::memory::Trail;
use base::{Base, Outcome};
use source::bytes::UNDECIDED;
use source::{Answer, Refusal};
use std::ops::ControlFlow;

// The lowest undecided statement.
fn first_open(partial: &[u8]) -> Option<usize>
    ensures { MatchOption result (Decided partial.now) (λ s. Lowest partial.now s) }
{
    partial.iter().position(|&byte| byte == UNDECIDED)
}

// One extension, and where to go on, or the answer; a plan is then in the partial.
fn step<B: Base>(
    base: &B,
    partial: &mut [u8],
    trail: &mut Trail,
) -> Result<ControlFlow<Answer>, Refusal>
    requires { Walks (B.wide base.now) trail.old partial.old }
    ensures { Turns (B.wide base.now) (B.outcome base.now) (partial.old ∷ waiting trail.old partial.old) trail.new partial.new result }
{
    match base.extend(partial)? {
        Outcome::Clash => Ok(trail.back(partial)),
        Outcome::Fits => match first_open(partial) {
            None => Ok(ControlFlow::Break(Answer::Plan)),
            Some(s) => {
                trail.fork(partial, s);
                Ok(ControlFlow::Continue(()))
            }
        },
    }
}

// Steps until a plan is found, which is then in the partial, or nothing is left to try.
pub fn run<B: Base>(base: &B, partial: &mut [u8]) -> Result<Answer, Refusal>
    requires { Partial (B.wide base.now) partial.old }
    ensures { Ran (B.wide base.now) (B.outcome base.now) partial.old partial.new result }
{
    let mut trail = Trail::new();
    // Stays: a loop, since only the theory counts its steps, so no iterator ends it.
    'steps: loop {
        if let ControlFlow::Break(answer) = step(base, partial, &mut trail)? {
            return Ok(answer);
        }
    }
}
