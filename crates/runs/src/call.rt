// The calls of a sheet and their replies as values.
ghost use Rattle.std.specs.Prelude.{Some};
ghost use Rattle.runs.specs.Text.{reply_text};

use sheet::{Tally, Word};
use std::fmt;

#[derive(Clone, Copy)]
pub enum Call<'a> {
    // the candidates
    Begin(&'a [u8]),
    // the group
    Settle(&'a [u8]),
    // the technique and its size
    SettleBy(&'a str, usize),
    // the statement and the way
    Pin(usize, u8),
    // the statement
    Tell(usize),
    Tally,
}

// The reply to a call that is not refused.
#[derive(Clone, Copy, Debug, PartialEq, Eq)]
pub enum Reply {
    Done,
    // how many ceased to be open
    Settled(usize),
    Told(Word),
    Tallied(Tally),
}

impl fmt::Display for Reply {
    ghost output = { λ r. Some (reply_text r) };

    fn fmt<W: fmt::Write>(&self, f: &mut fmt::Formatter<W>) -> fmt::Result {
        match self {
            Reply::Done => f.write_str("done"),
            Reply::Settled(ceased) => write!(f, "{ceased} no longer open"),
            Reply::Told(word) => write!(f, "{word}"),
            Reply::Tallied(tally) => write!(f, "{tally}"),
        }
    }
}
