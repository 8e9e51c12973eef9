// A small base: the plans in which some statement holds. It extends nothing, and clashes only when all has failed.
ghost use Rattle.std.specs.Prelude.{◌≡◌, ◌≤◌};
ghost use Rattle.search_tests.specs.SomeHolds.{all_fail, HoldsSomewhere, some_outcome};
ghost use Rattle.search_tests.specs.Laws.{some_lawful};

use base::{Base, Outcome, check};
use source::bytes::FAILS;
use source::{Refusal, WIDTH_MAX};

#[derive(Drop)]
pub struct SomeHolds {
    width: usize,
    ghost narrow: { width ≤ 512 },
}

impl SomeHolds {
    // So many statements, but 512 at most.
    pub fn over(width: usize) -> SomeHolds {
        SomeHolds {
            width: width.min(WIDTH_MAX),
        }
    }
}

// Whether every statement fails.
fn all_fail(bytes: &[u8]) -> bool
    ensures { result ≡ all_fail bytes.now }
{
    bytes.iter().all(|&byte| byte == FAILS)
}

impl Base for SomeHolds {
    ghost wide = { λ b. b.width };

    ghost plan = { λ b p. HoldsSomewhere b.width p };

    ghost outcome = { λ b q. some_outcome q };

    ghost lawful = { λ b. some_lawful b.width b.narrow };

    fn width(&self) -> usize {
        self.width
    }

    fn extend(&self, partial: &mut [u8]) -> Result<Outcome, Refusal> {
        check(self.width, partial)?;
        if all_fail(partial) {
            Ok(Outcome::Clash)
        } else {
            Ok(Outcome::Fits)
        }
    }
}
