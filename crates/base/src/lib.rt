// What a base is: a width, a set of plans, and one outcome for each partial.
#![tactic(auto)]

ghost use Rattle.std.specs.Prelude.{◌≡◌, ℕ, List};
ghost use Rattle.base.specs.Laws.{Out, Lawful};
ghost use Rattle.base.specs.Extending.{Extends, Checked};

use source::Refusal;
use source::bytes::{FAILS, up_to};

// What comes of a partial that is not refused.
// Stays: two answers with names, neither of them an error, and neither with a value.
#[derive(Clone, Copy, Debug, PartialEq, Eq)]
pub enum Outcome {
    Fits,
    Clash,
}

pub trait Base {
    // how many statements
    ghost wide: { Self → ℕ };

    // the plans, as a set of lists of bytes
    ghost plan: { Self → List ℕ → Type 0 };

    // the one outcome of each partial
    ghost outcome: { Self → List ℕ → Out };

    // what every base must show of these three
    ghost lawful: { (b : Self) → Lawful (wide b) (plan b) (outcome b) };

    fn width(&self) -> usize
        ensures { result ≡ wide self.now };

    // Writes the extended partial over the one given, or leaves it.
    fn extend(&self, partial: &mut [u8]) -> Result<Outcome, Refusal>
        ensures { Extends (wide self.now) (outcome self.now) partial.old result partial.new };
}

// Whether bytes are a partial of the width, or why they are refused.
pub fn check(width: usize, partial: &[u8]) -> Result<(), Refusal>
    ensures { Checked width partial.now result }
{
    if partial.len() != width {
        return Err(Refusal::Length);
    }
    if !up_to(partial, FAILS) {
        return Err(Refusal::Value);
    }
    Ok(())
}

// The laws of a base, for any base.
pub fn laws_stand<B: Base>(base: &B)
    ensures { Lawful (B.wide base.now) (B.plan base.now) (B.outcome base.now) }
{}
