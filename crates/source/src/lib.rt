// What a source of plans is: its answers, its refusals and the contract that every source keeps.
#![tactic(auto)]

ghost use Rattle.std.specs.Prelude.{◌≡◌, ℕ, ◌≤◌, List};
ghost use Rattle.source.specs.Plans.{Of};
ghost use Rattle.source.specs.Numbers.{number_of};
ghost use Rattle.source.specs.Asked.{Asked};

pub mod asking;
pub mod bytes;
mod question;

pub use question::Question;

// The most statements that a question may be asked over.
pub const WIDTH_MAX: usize = 512;

// What a question finds: a serving plan, now in the place, or that there is none.
// Stays: the plan goes into lent memory, so neither answer has a value that an Option could hold.
#[derive(Clone, Copy, Debug, PartialEq, Eq)]
pub enum Answer {
    Plan,
    Nothing,
}

// Why a question is sent away; where several causes are there, the one listed first is given.
#[derive(Clone, Copy, Debug, PartialEq, Eq)]
pub enum Refusal {
    // pins, group or place are not as long as the width
    Length = 1,
    // a byte of the pins is over 2
    Value = 2,
    // a byte of the group is over 1
    Mark = 3,
    // the source has more statements than WIDTH_MAX
    Wide = 4,
}

impl Refusal {
    pub fn number(self) -> u8
        ensures { result ≡ number_of self }
    {
        self as u8
    }
}

// A width and a set of plans of that width, which can be asked for a plan that serves.
pub trait Source {
    // how many statements
    ghost wide: { Self → ℕ };

    // the plans, as a set of lists of bytes
    ghost plan: { Self → List ℕ → Type 0 };

    // The number of statements; over 512 says that the source is too wide to be asked, and then it is 513.
    fn width(&self) -> usize
        ensures value { result ≡ wide self.now }
        ensures narrow { result ≤ 513 };

    // A plan that agrees with the pins and fails at a statement that the group marks, if it marks any. The plan goes
    // into the place; a source that finds none, or sends the question away, leaves the place as it was.
    fn question(&self, question: Question<'_>, place: &mut [u8]) -> Result<Answer, Refusal>
        ensures { Asked (wide self.now) (Of (wide self.now) (plan self.now)) question.entry.pins.now question.entry.group.now place.old result place.new };
}
