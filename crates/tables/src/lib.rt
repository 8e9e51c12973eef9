// The rows of the lent tables, and why a text is refused; specs/ has what reading a text leaves in them.
#![tactic(auto)]

ghost use Rattle.std.specs.Prelude.{◌≡◌, Some};
ghost use Rattle.tables.specs.Numbers.{number_of, owner_number, owner_numbered, no_text_line, fault_text};
ghost use Rattle.tables.specs.Reading.{cause_of, stop_of};

pub use rulebook::row::RuleRow;
use std::error::Error;
use std::fmt;
use words::FaultKind;

// Whose text: the region's, which is read first, or the harbour's.
#[derive(Clone, Copy, Debug, PartialEq, Eq)]
pub enum Owner {
    Region = 0,
    Harbour = 1,
}

impl Owner {
    pub fn number(self) -> u8
        ensures { result ≡ owner_number self }
    {
        self as u8
    }
}

// A number that is no text's.
#[derive(Clone, Copy, Debug, PartialEq, Eq)]
pub struct NoText {
    pub number: u8,
}

impl fmt::Display for NoText {
    ghost output = { λ n. Some (no_text_line n) };

    fn fmt<W: fmt::Write>(&self, f: &mut fmt::Formatter<W>) -> fmt::Result {
        write!(f, "no text has number {}", self.number)
    }
}

impl Error for NoText {}

impl TryFrom<u8> for Owner {
    type Error = NoText;

    ghost try_from_gives = { λ n r. r ≡ owner_numbered n };

    fn try_from(number: u8) -> Result<Self, NoText> {
        match number {
            0 => Ok(Owner::Region),
            1 => Ok(Owner::Harbour),
            _ => Err(NoText { number }),
        }
    }
}

// Where the name of a statement stands: its text (0 the region's, 1 the harbour's), its first byte and how many bytes.
#[derive(Clone, Copy, Debug, PartialEq, Eq)]
pub struct NameRow {
    // Stays: no `Owner`, since the rows are lent in this format, and one of no text names nothing.
    pub text: u8,
    pub first: u16,
    pub size: u16,
}

impl NameRow {
    pub const EMPTY: NameRow = NameRow {
        text: 0,
        first: 0,
        size: 0,
    };
}

// Why a text is refused; the number of the cause is its discriminant.
#[derive(Clone, Copy, Debug, PartialEq, Eq)]
pub enum Cause {
    // before it is read, by the draft
    LongText = 14,
    ThirdText = 15,
    ShortTable = 16,
    // by its words
    NoWord = 20,
    LongName = 21,
    // by its rules
    OutOfPlace = 22,
    // by the draft again: no row is left
    NoNameRow = 23,
    NoEntryRow = 24,
    NoRuleRow = 25,
}

impl Cause {
    pub fn number(self) -> u8
        ensures { result ≡ number_of self }
    {
        self as u8
    }
}

impl From<FaultKind> for Cause {
    ghost from_gives = { λ k r. r ≡ cause_of k };

    fn from(kind: FaultKind) -> Self {
        match kind {
            FaultKind::NoWord => Cause::NoWord,
            FaultKind::LongName => Cause::LongName,
        }
    }
}

// Why a text is refused, and where: the byte from 0 and the line from 1.
#[derive(Clone, Copy, Debug, PartialEq, Eq)]
pub struct Fault {
    pub cause: Cause,
    pub text: Owner,
    pub byte: usize,
    pub line: usize,
}

impl fmt::Display for Fault {
    ghost output = { λ f. Some (fault_text f) };

    fn fmt<W: fmt::Write>(&self, f: &mut fmt::Formatter<W>) -> fmt::Result {
        write!(
            f,
            "fault {} text {} byte {} line {}",
            self.cause.number(),
            self.text.number(),
            self.byte,
            self.line
        )
    }
}

impl Error for Fault {}

// Why reading stops, and at which byte.
#[derive(Clone, Copy, Debug, PartialEq, Eq)]
pub struct Stop {
    pub cause: Cause,
    pub at: usize,
}

impl From<words::Fault> for Stop {
    ghost from_gives = { λ f r. r ≡ stop_of f };

    fn from(fault: words::Fault) -> Self {
        Stop {
            cause: fault.kind.into(),
            at: fault.at,
        }
    }
}

// What stands before the next word in its rule.
#[derive(Clone, Copy, Debug, PartialEq, Eq)]
pub enum Phase {
    // nothing: the last rule has ended
    Start,
    AfterHead,
    // the arrow or a comma
    WantEntry,
    // not
    WantName,
    AfterEntry,
}
