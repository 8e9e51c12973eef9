// The calls and the answers of the day in an office's words.
use runs::{Call, Reply};
use sheet::{SheetRefusal, Way};
use source::bytes::MARKED;
use std::fmt;

// A statement of tomorrow, by its number.
#[derive(Clone, Copy)]
struct Statement(usize);

impl fmt::Display for Statement {
    fn fmt<W: fmt::Write>(&self, f: &mut fmt::Formatter<W>) -> fmt::Result {
        f.write_str(match self.0 {
            0 => "Alma at the north quay",
            1 => "Alma at the south quay",
            2 => "Bris at the north quay",
            3 => "Bris at the south quay",
            4 => "Tern at the slip",
            5 => "Alma in port",
            _ => "a berth that is not in the book",
        })
    }
}

// The marked statements of a group, or of candidates.
#[derive(Clone, Copy)]
struct Marked<'a>(&'a [u8]);

impl fmt::Display for Marked<'_> {
    fn fmt<W: fmt::Write>(&self, f: &mut fmt::Formatter<W>) -> fmt::Result {
        for (statement, &mark) in self.0.iter().enumerate() {
            if mark == MARKED {
                write!(f, " [{}]", Statement(statement))?;
            }
        }
        Ok(())
    }
}

// A call as it is put.
#[derive(Clone, Copy)]
pub struct Asked<'a>(pub &'a Call<'a>);

impl fmt::Display for Asked<'_> {
    fn fmt<W: fmt::Write>(&self, f: &mut fmt::Formatter<W>) -> fmt::Result {
        match self.0 {
            Call::Begin(candidates) => write!(f, "begin with{}", Marked(candidates)),
            Call::Settle(group) => write!(f, "settle{}", Marked(group)),
            Call::SettleBy(technique, 0) => write!(f, "settle by {technique}"),
            Call::SettleBy(technique, size) => write!(f, "settle by {technique} of {size}"),
            Call::Pin(statement, way) => match Way::try_from(*way) {
                Ok(way) => write!(f, "pin [{}] {way}", Statement(*statement)),
                Err(_) => write!(f, "pin [{}] neither holds nor fails", Statement(*statement)),
            },
            Call::Tell(statement) => write!(f, "tell [{}]", Statement(*statement)),
            Call::Tally => f.write_str("tally"),
        }
    }
}

// What it was answered.
#[derive(Clone, Copy)]
pub struct Answer<'a>(pub &'a Result<Reply, SheetRefusal>);

impl fmt::Display for Answer<'_> {
    fn fmt<W: fmt::Write>(&self, f: &mut fmt::Formatter<W>) -> fmt::Result {
        match self.0 {
            Ok(reply) => write!(f, "{reply}"),
            Err(refusal) => write!(f, "refused by {}: {refusal}", refusal.number()),
        }
    }
}
