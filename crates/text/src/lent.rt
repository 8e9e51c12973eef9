// The lent tables, and how many of their rows count.
ghost use Rattle.std.specs.Prelude.{◌≡◌, ℕ, ◌+◌, ◌≤◌, true, false, length, slice_set, MatchOption};
ghost use Rattle.tables.specs.Limits.{names_max, rules_max, entries_max};
ghost use Rattle.tables.specs.Feed.{full};

use tables::{NameRow, RuleRow};

// How many rows of each table count.
#[derive(Clone, Copy, Debug, PartialEq, Eq)]
pub struct Filled {
    pub names: usize,
    pub rules: usize,
    pub entries: usize,
    ghost limits: { (names ≤ names_max) × (rules ≤ rules_max) × (entries ≤ entries_max) },
}

// The three tables that a caller lends.
#[derive(Debug, Drop)]
pub struct Tables<'a> {
    pub names: &'a mut [NameRow],
    pub rules: &'a mut [RuleRow],
    pub entries: &'a mut [u16],
}

impl Tables<'_> {
    ghost use Rattle.tables.specs.Draft.{short, cleared_tables};
    ghost use Rattle.text.specs.View.{rows_of, counted, IsSameLoan};

    // Whether a table has fewer rows than count in it.
    pub(crate) fn is_short(&self, filled: Filled) -> bool
        ensures { result ≡ short (counted 0 filled) (rows_of self.now) }
    {
        self.names.len() < filled.names
            || self.rules.len() < filled.rules
            || self.entries.len() < filled.entries
    }

    // Every row past those that count becomes zero.
    pub(crate) fn clear(&mut self, filled: Filled)
        requires { short (counted 0 filled) (rows_of self.old) ≡ false }
        ensures rows { rows_of self.new ≡ cleared_tables (counted 0 filled) (rows_of self.old) }
        ensures same { IsSameLoan self.old self.new }
    {
        self.names[filled.names..].fill(NameRow::EMPTY);
        self.rules[filled.rules..].fill(RuleRow::EMPTY);
        self.entries[filled.entries..].fill(0);
    }
}

// Writes the row after those that count, and gives their number then; or nothing, where their limit is reached or the table is full.
pub(crate) fn push<T: Copy>(rows: &mut [T], count: usize, limit: usize, row: T) -> Option<usize>
    ensures { MatchOption result ((full limit (length rows.old) count ≡ true) × (rows.new ≡ rows.old)) (λ n. (full limit (length rows.old) count ≡ false) × (n ≡ count + 1) × (n ≤ limit) × (rows.new ≡ slice_set rows.old count row)) }
{
    if count >= limit || count >= rows.len() {
        return None;
    }
    // Stays: with `*rows.get_mut(count)? = row` the check knows no row afterwards, and the clause did not prove.
    rows[count] = row;
    Some(count + 1)
}
