// A line of a sheet, one for each statement, and what each call makes of it.
ghost use Rattle.std.specs.Prelude.{◌≡◌};
ghost use Rattle.table.specs.Lineup.{line_has, word_in, begun_line, settled_line, pinned_word, pinned_line};

use source::WIDTH_MAX;
use source::bytes::{FAILS, HOLDS, MARKED, UNDECIDED};
use uses::Word;

// How many lines a sheet has.
pub const LINES: usize = WIDTH_MAX;

#[derive(Clone, Copy, Debug, PartialEq, Eq)]
pub struct Line {
    // Stays: a flag beside the word, since a settling may mark any line, and as an `Option<Word>` it would have to ask that it marks candidates alone.
    pub candidate: bool,
    // UNDECIDED where the statement is not pinned.
    // Stays: a byte, since a line takes whatever way it is given and an `Option<Way>` would ask more, and with three bytes to a line a sheet stays small.
    pub pin: u8,
    pub word: Word,
}

// The word of a candidate by its byte in a plan.
fn word_in(byte: u8) -> Word
    ensures { result ≡ word_in byte }
{
    if byte == FAILS {
        Word::Loose
    } else {
        Word::Open
    }
}

// A candidate's word after a pin that was kept, which is its own pin if there is one.
fn pinned_word(pin: Option<u8>, word: Word, byte: u8) -> Word
    ensures { result ≡ pinned_word pin word byte }
{
    match (pin, word) {
        (Some(HOLDS), _) | (_, Word::Certain) => Word::Certain,
        _ => word_in(byte),
    }
}

impl Line {
    // Whether it is a candidate's line with that word.
    pub fn has(&self, word: Word) -> bool
        ensures { result ≡ line_has word self.now }
    {
        self.candidate && self.word == word
    }

    // As a sheet begins.
    pub fn begin(&mut self, mark: u8, byte: u8)
        ensures { self.new ≡ begun_line mark byte }
    {
        *self = Line {
            candidate: mark == MARKED,
            pin: UNDECIDED,
            word: if mark == MARKED {
                word_in(byte)
            } else {
                Word::Open
            },
        };
    }

    // As a settling leaves it, by its byte in the plan, if a plan came.
    pub fn settle(&mut self, byte: Option<u8>, mark: u8)
        ensures { self.new ≡ settled_line byte self.old mark }
    {
        match byte {
            Some(FAILS) if self.has(Word::Open) => self.word = Word::Loose,
            None if mark == MARKED => self.word = Word::Certain,
            _ => {}
        }
    }

    // As a pin that was kept leaves it, which is the line's own if there is one.
    pub fn repin(&mut self, pin: Option<u8>, byte: u8)
        ensures { self.new ≡ pinned_line pin self.old byte }
    {
        // Stays: an `if`, since `unwrap_or` would write every line's pin, the other 511 too.
        if let Some(way) = pin {
            self.pin = way;
        }
        if self.candidate {
            self.word = pinned_word(pin, self.word, byte);
        }
    }
}
