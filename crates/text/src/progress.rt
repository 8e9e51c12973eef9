// How far the reading of a text has come.
ghost use Rattle.std.specs.Prelude.{◌≤◌};

use crate::lent::Filled;
use tables::Phase;

// Where reading stands in its rule (the rule's head, and the first entry of its run), and what counts so far.
#[derive(Clone, Copy, Debug, PartialEq, Eq)]
pub struct Progress {
    pub phase: Phase,
    pub head: Option<u16>,
    pub first: usize,
    pub filled: Filled,
    ghost run: { first ≤ filled.entries },
}

impl Progress {
    ghost use Rattle.std.specs.Prelude.{◌≡◌};
    ghost use Rattle.tables.specs.Draft.{stage_from};
    ghost use Rattle.text.specs.View.{counted};
    ghost use Rattle.text.specs.Stages.{stage_of};

    // Before the first word.
    pub(crate) fn new(filled: Filled) -> Self
        ensures { stage_of result ≡ stage_from (counted 0 filled) }
    {
        Progress {
            phase: Phase::Start,
            // Stays: the definition begins with 0; nothing reads it before a rule has set it.
            head: Some(0),
            first: filled.entries,
            filled,
        }
    }
}
