// The words, the tally and the refusals of a sheet; specs/ has its model, what each call does, its uses and the law over them.
#![tactic(auto)]

ghost use Rattle.std.specs.Prelude.{◌≡◌, Some};
ghost use Rattle.uses.specs.Model.{number_of, word_number};
ghost use Rattle.uses.specs.Way.{way_number, IsWayOf};
ghost use Rattle.uses.specs.Text.{word_text, way_text, tally_text, refusal_text};

use source::bytes::{FAILS, HOLDS};
use std::error::Error;
use std::fmt;

// What a sheet says of a candidate.
#[derive(Clone, Copy, Debug, PartialEq, Eq)]
pub enum Word {
    // nothing is known yet
    Open = 0,
    // it holds in every plan that agrees with the pins
    Certain = 1,
    // it fails in some plan that agrees with the pins
    Loose = 2,
}

impl Word {
    pub fn number(self) -> u8
        ensures { result ≡ word_number self }
    {
        // a word's discriminant is its number
        self as u8
    }
}

impl fmt::Display for Word {
    ghost output = { λ w. Some (word_text w) };

    fn fmt<W: fmt::Write>(&self, f: &mut fmt::Formatter<W>) -> fmt::Result {
        f.write_str(match self {
            Word::Open => "open, not known yet",
            Word::Certain => "certain, may be promised",
            Word::Loose => "loose, may not be promised",
        })
    }
}

// The way of a pin.
#[derive(Clone, Copy, Debug, PartialEq, Eq)]
pub enum Way {
    // the statement holds
    Holds = 1,
    // the statement fails
    Fails = 2,
}

impl Way {
    // Its byte in a partial, and in a plan that agrees with the pin.
    pub fn number(self) -> u8
        ensures { result ≡ way_number self }
    {
        self as u8
    }
}

impl TryFrom<u8> for Way {
    type Error = SheetRefusal;

    ghost try_from_gives = { IsWayOf };

    fn try_from(byte: u8) -> Result<Self, SheetRefusal> {
        match byte {
            HOLDS => Ok(Way::Holds),
            FAILS => Ok(Way::Fails),
            _ => Err(SheetRefusal::Value),
        }
    }
}

impl fmt::Display for Way {
    ghost output = { λ w. Some (way_text w) };

    fn fmt<W: fmt::Write>(&self, f: &mut fmt::Formatter<W>) -> fmt::Result {
        f.write_str(match self {
            Way::Holds => "holds",
            Way::Fails => "fails",
        })
    }
}

// How many candidates have each word.
#[derive(Clone, Copy, Debug, PartialEq, Eq)]
pub struct Tally {
    pub open: usize,
    pub certain: usize,
    pub loose: usize,
}

impl fmt::Display for Tally {
    ghost output = { λ t. Some (tally_text t) };

    fn fmt<W: fmt::Write>(&self, f: &mut fmt::Formatter<W>) -> fmt::Result {
        write!(
            f,
            "{} open, {} certain, {} loose",
            self.open, self.certain, self.loose
        )
    }
}

// Why a call of the sheet is refused; where several causes are there, the one listed first is given.
#[derive(Clone, Copy, Debug, PartialEq, Eq)]
pub enum SheetRefusal {
    // the candidates or the group are not as long as the source is wide
    Length = 1,
    // the way of a pin is neither 1 nor 2
    Value = 2,
    // a byte of the candidates or of the group is over 1
    Mark = 3,
    // the source has more statements than a sheet has lines
    Wide = 4,
    // the sheet is not begun yet
    Unbegun = 5,
    // the sheet is begun already
    Begun = 6,
    // no candidate is open
    NoneOpen = 7,
    // the group is empty or marks more than open candidates, or the chunk has size 0
    Group = 8,
    // no technique has this name
    Name = 9,
    // the statement is not below the width
    Statement = 10,
    // the statement is pinned already
    Pinned = 11,
    // no plan agrees with the pins
    NoPlan = 12,
    // the statement is no candidate
    Candidate = 13,
}

impl SheetRefusal {
    pub fn number(self) -> u8
        ensures { result ≡ number_of self }
    {
        // a refusal's discriminant is its number
        self as u8
    }
}

impl fmt::Display for SheetRefusal {
    ghost output = { λ e. Some (refusal_text e) };

    fn fmt<W: fmt::Write>(&self, f: &mut fmt::Formatter<W>) -> fmt::Result {
        f.write_str(match self {
            SheetRefusal::Length => "not one byte for each statement",
            SheetRefusal::Value => "a pin holds or fails",
            SheetRefusal::Mark => "a mark is 0 or 1",
            SheetRefusal::Wide => "too many statements",
            SheetRefusal::Unbegun => "the sheet is not begun",
            SheetRefusal::Begun => "the sheet is begun already",
            SheetRefusal::NoneOpen => "no candidate is open",
            SheetRefusal::Group => "not a group of open candidates",
            SheetRefusal::Name => "no such technique",
            SheetRefusal::Statement => "no such statement",
            SheetRefusal::Pinned => "pinned already",
            SheetRefusal::NoPlan => "no plan agrees with the pins",
            SheetRefusal::Candidate => "not a candidate",
        })
    }
}

impl Error for SheetRefusal {}
