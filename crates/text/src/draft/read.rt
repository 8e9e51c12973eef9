// Reads a text into a draft.
ghost use Rattle.std.specs.Prelude.{◌≡◌, ◌+◌, ◌<◌, ◌≤◌, length, MatchResult, Some, None};
ghost use Rattle.tables.specs.Law.{Reads};
ghost use Rattle.tables.specs.Numbers.{owner_number};
ghost use Rattle.tables.specs.Draft.{Counts, Outcome, owner_after, refusal_of, read_of};
ghost use Rattle.text.specs.View.{counted, rows_of, IsSameLoan};
ghost use Rattle.text.specs.Counted.{counts_of};

use crate::draft::Draft;
use crate::lent::{Filled, Tables};
use crate::lines::line_of;
use crate::progress::Progress;
use crate::scan::scan;
use crate::texts::{Reading, TEXT_MAX, TEXTS_MAX};
use tables::{Cause, Fault, Owner};

impl Draft {
    // Nothing is read yet.
    pub fn new() -> Self
        ensures { counts_of result ≡ (record { texts = 0; names = 0; rules = 0; entries = 0 }) }
    {
        Draft {
            next: Some(Owner::Region),
            filled: Filled {
                names: 0,
                rules: 0,
                entries: 0,
            },
        }
    }

    // How many texts were taken.
    pub fn texts(&self) -> u8
        ensures { result ≡ (counts_of self.now).texts }
    {
        self.next.map_or(TEXTS_MAX, Owner::number)
    }

    // How many names were counted.
    pub fn names(&self) -> usize
        ensures { result ≡ (counts_of self.now).names }
    {
        self.filled.names
    }

    // How many rules were counted.
    pub fn rules(&self) -> usize
        ensures { result ≡ (counts_of self.now).rules }
    {
        self.filled.rules
    }

    // How many entries were counted.
    pub fn entries(&self) -> usize
        ensures { result ≡ (counts_of self.now).entries }
    {
        self.filled.entries
    }

    // Whose the text is, or why nothing is read.
    fn admit(&self, text: &[u8], tables: &Tables) -> Result<Owner, Cause>
        ensures { MatchResult result (λ o. (refusal_of (counts_of self.now) text.now (rows_of tables.now) ≡ None) × (self.now.next ≡ Some o)) (λ c. refusal_of (counts_of self.now) text.now (rows_of tables.now) ≡ Some c) }
    {
        if text.len() > TEXT_MAX {
            return Err(Cause::LongText);
        }
        let owner = self.next.ok_or(Cause::ThirdText)?;
        if tables.is_short(self.filled) {
            return Err(Cause::ShortTable);
        }
        Ok(owner)
    }

    // The owner's text is taken, and so many rows count.
    fn count(&mut self, owner: Owner, filled: Filled)
        ensures { counts_of self.new ≡ counted (owner_number owner + 1) filled }
    {
        self.next = match owner {
            Owner::Region => Some(Owner::Harbour),
            Owner::Harbour => None,
        };
        self.filled = filled;
    }

    // Reads one text more, the region's and then the harbour's; `earlier` is the region's text again, and is not looked at where the text is the region's. It is read whole, or a fault says why not and where.
    pub fn read<'a>(
        &mut self,
        text: &'a [u8],
        earlier: &'a [u8],
        tables: &mut Tables,
    ) -> Result<(), Fault>
        ensures is { (record { result = result; counts = counts_of self.new; tables = rows_of tables.new }) ≡ read_of (counts_of self.old) text.now earlier.now (rows_of tables.old) }
        ensures law { Reads (counts_of self.old) text.now earlier.now (rows_of tables.old) (record { result = result; counts = counts_of self.new; tables = rows_of tables.new }) }
        ensures same { IsSameLoan tables.old tables.new }
    {
        let owner = self.admit(text, tables).map_err(|cause| Fault {
            cause,
            text: self.next.unwrap_or(Owner::Harbour),
            byte: 0,
            line: 1,
        })?;
        let mut progress = Progress::new(self.filled);
        match scan(
            text,
            Reading::new(owner, text, earlier),
            &mut progress,
            tables,
        ) {
            Ok(()) => {
                self.count(owner, progress.filled);
                Ok(())
            }
            Err(stop) => {
                tables.clear(self.filled);
                Err(Fault {
                    cause: stop.cause,
                    text: owner,
                    byte: stop.at,
                    line: line_of(text, stop.at),
                })
            }
        }
    }
}
