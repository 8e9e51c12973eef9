// What one word does: the rules say which word may stand where, the draft writes its rows.
ghost use Rattle.std.specs.Prelude.{◌≡◌, ℕ, ◌+◌, ◌<◌, ◌≤◌, length, IfOk};
ghost use Rattle.words.specs.Words.{name as name_as, token_of, place_of, size_of};
ghost use Rattle.tables.specs.Feed.{Tables as Rows, feed, numbered, headed, entered, entered_as, closed, finished};
ghost use Rattle.text.specs.View.{texts_of, rows_of, IsSameLoan};
ghost use Rattle.text.specs.Stages.{Onward, fed, fed_number, sign_number, stage_of};

use crate::front::front;
use crate::lent::{Tables, push};
use crate::name::Name;
use crate::names::first_named;
use crate::progress::Progress;
use crate::texts::{Reading, TEXT_MAX};
use rulebook::{ENTRIES_MAX, NAMES_MAX, RULES_MAX};
use tables::{Cause, NameRow, Phase, RuleRow, Stop};
use words::{Kind, NAME_MAX, Word};

// Whether an entry denies its statement: what its code has on top of twice the statement.
#[derive(Clone, Copy, Debug, PartialEq, Eq)]
enum Sign {
    Plain = 0,
    Negated = 1,
}

impl Progress {
    // The number of a name, with a new row if the name has none.
    fn number(&mut self, name: Name, reading: Reading, tables: &mut Tables) -> Result<u16, Stop>
        ensures says { (f : Onward) → fed_number result f (stage_of self.new) (rows_of tables.new) ≡ numbered (texts_of reading.entry) name.entry.bytes.now name.entry.at f (stage_of self.old) (rows_of tables.old) }
        ensures below { IfOk result (λ n. n < NAMES_MAX) }
        ensures same { IsSameLoan tables.old tables.new }
    {
        let names = &mut *tables.names;
        let count = self.filled.names;
        if let Some(n) = first_named(front(names, count), reading.texts, name.bytes) {
            return Ok(n as u16);
        }
        let row = NameRow {
            text: reading.owner.number(),
            first: name.at as u16,
            size: name.bytes.len() as u16,
        };
        self.filled.names = push(names, count, NAMES_MAX, row).ok_or(Stop {
            cause: Cause::NoNameRow,
            at: name.at,
        })?;
        Ok(count as u16)
    }

    // The head of the rule.
    fn take_head(&mut self, name: Name, reading: Reading, tables: &mut Tables) -> Result<(), Stop>
        ensures says { fed result (stage_of self.new) (rows_of tables.new) ≡ numbered (texts_of reading.entry) name.entry.bytes.now name.entry.at headed (stage_of self.old) (rows_of tables.old) }
        ensures same { IsSameLoan tables.old tables.new }
    {
        self.head = Some(self.number(name, reading, tables)?);
        self.phase = Phase::AfterHead;
        Ok(())
    }

    // One entry more.
    fn push_entry(&mut self, code: u16, at: usize, tables: &mut Tables) -> Result<(), Stop>
        ensures says { fed result (stage_of self.new) (rows_of tables.new) ≡ entered at code (stage_of self.old) (rows_of tables.old) }
        ensures same { IsSameLoan tables.old tables.new }
    {
        let count = self.filled.entries;
        self.filled.entries = push(tables.entries, count, ENTRIES_MAX, code).ok_or(Stop {
            cause: Cause::NoEntryRow,
            at,
        })?;
        self.phase = Phase::AfterEntry;
        Ok(())
    }

    // The entry of a name.
    fn take_entry(
        &mut self,
        sign: Sign,
        name: Name,
        reading: Reading,
        tables: &mut Tables,
    ) -> Result<(), Stop>
        ensures says { fed result (stage_of self.new) (rows_of tables.new) ≡ numbered (texts_of reading.entry) name.entry.bytes.now name.entry.at (entered_as name.entry.at (sign_number sign)) (stage_of self.old) (rows_of tables.old) }
        ensures same { IsSameLoan tables.old tables.new }
    {
        let n = self.number(name, reading, tables)?;
        self.push_entry(2 * n + sign as u16, name.at, tables)
    }

    // The rule has ended: its own row.
    fn close(&mut self, at: usize, tables: &mut Tables) -> Result<(), Stop>
        ensures says { fed result (stage_of self.new) (rows_of tables.new) ≡ closed at (stage_of self.old) (rows_of tables.old) }
        ensures same { IsSameLoan tables.old tables.new }
    {
        let row = RuleRow {
            head: self.head.unwrap_or(RuleRow::NO_HEAD),
            first: self.first as u16,
            count: (self.filled.entries - self.first) as u16,
        };
        let count = self.filled.rules;
        self.filled.rules = push(tables.rules, count, RULES_MAX, row).ok_or(Stop {
            cause: Cause::NoRuleRow,
            at,
        })?;
        self.first = self.filled.entries;
        self.phase = Phase::Start;
        Ok(())
    }

    // A name, which is a head or an entry by where it stands.
    fn take_name(&mut self, name: Name, reading: Reading, tables: &mut Tables) -> Result<(), Stop>
        ensures says { fed result (stage_of self.new) (rows_of tables.new) ≡ feed (texts_of reading.entry) (name_as name.entry.bytes.now) name.entry.at (stage_of self.old) (rows_of tables.old) }
        ensures same { IsSameLoan tables.old tables.new }
    {
        match self.phase {
            Phase::Start => self.take_head(name, reading, tables),
            Phase::WantEntry => self.take_entry(Sign::Plain, name, reading, tables),
            Phase::WantName => self.take_entry(Sign::Negated, name, reading, tables),
            Phase::AfterHead | Phase::AfterEntry => Err(Stop {
                cause: Cause::OutOfPlace,
                at: name.at,
            }),
        }
    }

    // One word.
    pub(crate) fn step(
        &mut self,
        word: Word,
        reading: Reading,
        tables: &mut Tables,
    ) -> Result<(), Stop>
        requires { (place_of word < TEXT_MAX) × (size_of (token_of word) ≤ NAME_MAX) }
        ensures says { fed result (stage_of self.new) (rows_of tables.new) ≡ feed (texts_of reading.entry) (token_of word.entry) (place_of word.entry) (stage_of self.old) (rows_of tables.old) }
        ensures same { IsSameLoan tables.old tables.new }
    {
        let at = word.at;
        match (self.phase, word.kind) {
            (_, Kind::Name(bytes)) => self.take_name(Name { bytes, at }, reading, tables),
            (Phase::Start, Kind::Arrow) => {
                self.head = None;
                self.phase = Phase::WantEntry;
                Ok(())
            }
            (Phase::AfterHead, Kind::Arrow) | (Phase::AfterEntry, Kind::Comma) => {
                self.phase = Phase::WantEntry;
                Ok(())
            }
            (Phase::WantEntry, Kind::Not) => {
                self.phase = Phase::WantName;
                Ok(())
            }
            (Phase::AfterHead | Phase::AfterEntry, Kind::Point) => self.close(at, tables),
            _ => Err(Stop {
                cause: Cause::OutOfPlace,
                at,
            }),
        }
    }

    // The end of the text: within a rule it may not come.
    pub(crate) fn finish(&self, at: usize) -> Result<(), Stop>
        ensures { (t : Rows) → fed result (stage_of self.now) t ≡ finished at (stage_of self.now) t }
    {
        if self.phase == Phase::Start {
            Ok(())
        } else {
            Err(Stop {
                cause: Cause::OutOfPlace,
                at,
            })
        }
    }
}
