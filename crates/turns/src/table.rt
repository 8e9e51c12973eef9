// The tables of a rulebook: rows of rules and the entries of their bodies.
ghost use Rattle.std.specs.Prelude.{◌≡◌, ℕ, ◌<◌, ◌≤◌, true, length, IfSome, if◌then◌else◌, ◌==◌};
ghost use Rattle.std.specs.List.{All, Contains};
ghost use Rattle.closing.specs.Sets.{Codes};
ghost use Rattle.rulebook.specs.Rows.{row_in};

use rulebook::row::RuleRow;
use rulebook::sealed::Rulebook;

// Rows and entries over so many statements, each of them within its counts.
#[derive(Clone, Copy)]
pub struct Table<'a> {
    pub width: usize,
    pub rows: &'a [RuleRow],
    pub entries: &'a [u16],
    ghost narrow: { width ≤ 512 },
    ghost within: { All (λ r. row_in width (length entries.now) r ≡ true) rows.now },
    ghost codes: { Codes width entries.now },
}

// The tables of a sealed rulebook are within its counts.
impl<'a> From<&'a Rulebook> for Table<'a> {
    ghost use Rattle.turns.specs.Meaning.{Tables};

    ghost from_gives = { λ book table. Tables book.now table };

    fn from(book: &'a Rulebook) -> Table<'a> {
        Table {
            width: book.width,
            rows: book.rows(),
            entries: book.entries(),
        }
    }
}

impl<'a> Table<'a> {
    ghost use Rattle.turns.specs.Table.{body_of};

    // The statement that a row of the table is about, or none.
    pub fn head(&self, row: RuleRow) -> Option<usize>
        requires { Contains self.now.rows.now row }
        ensures value { result ≡ (if row.head == 65535 then None else Some row.head) }
        ensures within { IfSome result (λ s. s < self.now.width) }
    {
        row.head().map(|s| s as usize)
    }

    // The entries of a row of the table.
    pub fn body(&self, row: RuleRow) -> &'a [u16]
        requires { Contains self.now.rows.now row }
        ensures value { result.now ≡ body_of self.now.entries.now row }
        ensures codes { Codes self.now.width result.now }
    {
        row.body(self.entries)
    }
}
