// The rulebook base: the five rules of a sealed rulebook as rules that force decisions.
#![tactic(auto)]

ghost use Rattle.std.specs.Prelude.{◌≡◌, ℕ, ◌+◌, ◌<◌, length};
ghost use Rattle.source.specs.Plans.{Partial};
ghost use Rattle.base.specs.Extending.{Extends};
ghost use Rattle.closing.specs.Forces.{outcome};
ghost use Rattle.closing.specs.Turns.{Turn};
ghost use Rattle.stable.specs.Decide.{book_forces};
ghost use Rattle.stable.specs.Books.{BookPlan};
ghost use Rattle.bases.specs.Bodiless.{bodiless};
ghost use Rattle.bases.specs.ByRules.{ByRules};
ghost use Rattle.bases.specs.Sealed.{sealed_forces, sealed_based};
ghost use Rattle.turns.specs.Meaning.{book_at, book_in, Tables};

use base::{Base, Outcome};
use closing::{Clash, Closing, Rules, Turned};
use rulebook::row::RuleRow;
use rulebook::sealed::Rulebook;
use rules::RulebookRules;
use source::Refusal;
use turns::chains::ChainedTable;
use turns::table::Table;

pub mod rules;

// Whether a row is a headless rule with an empty body.
fn is_bodiless(row: RuleRow) -> bool
    ensures { result ≡ bodiless row }
{
    row.head().is_none() && row.count == 0
}

// The turn of the rule in row i; a headless rule with an empty body leaves no plan.
fn row_turn(table: &Table, p: &mut [u8], i: usize) -> Turned
    requires row { i < length table.now.rows.now }
    requires partial { Partial table.now.width p.old }
    ensures { Turn (book_forces (book_at table.now)) i p.old p.new result }
{
    if is_bodiless(table.rows[i]) {
        return Err(Clash);
    }
    table.row_step(p, i)
}

impl<'a> RulebookRules<'a> {
    // The rules of a sealed rulebook, ready to extend partials.
    pub fn over(book: &'a Rulebook) -> RulebookRules<'a>
        ensures lent { result.book.now ≡ book.now }
        ensures table { Tables book.now result.chained.table }
        ensures book { book_at result.chained.table ≡ book_in book.now }
    {
        RulebookRules {
            book,
            chained: ChainedTable::new(Table::from(book)),
        }
    }
}

impl<'a> Rules for RulebookRules<'a> {
    ghost forces = { λ s. book_forces (book_in s.book.now) };

    ghost plan = { λ s p. BookPlan (book_in s.book.now) p };

    ghost sound = { λ s. sealed_forces s.book.now };

    ghost based = { λ s. sealed_based s.book.now };

    fn width(&self) -> usize {
        self.book.width
    }

    fn count(&self) -> usize {
        self.book.rules + self.book.width + 1
    }

    fn swift(&self) -> usize {
        self.book.rules + self.book.width
    }

    // The turn of a row, then of a statement, then of the unfounded sets.
    fn turn(&self, p: &mut [u8], k: usize) -> Turned {
        let rows = self.chained.table.rows.len();
        if k < rows {
            row_turn(&self.chained.table, p, k)
        } else if k < rows + self.chained.table.width {
            self.chained.statement_step(p, k - rows)
        } else {
            self.chained.table.unfounded_step(p)
        }
    }
}

// Extends a partial by a sealed rulebook.
pub fn extend_rulebook(book: &Rulebook, partial: &mut [u8]) -> Result<Outcome, Refusal>
    ensures extends { Extends book.now.width (outcome (book_forces (book_in book.now))) partial.old result partial.new }
    ensures rules { ByRules (book_in book.now) partial.old result partial.new }
{
    let base = Closing {
        rules: RulebookRules::over(book),
    };
    base.extend(partial)
}
