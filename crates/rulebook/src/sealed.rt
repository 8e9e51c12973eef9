// What a sealed rulebook holds.
ghost use Rattle.std.specs.Prelude.{◌≡◌, ℕ, ◌*◌, ◌<◌, ◌≤◌, true, length, take, slice_index, slice_index_or};
ghost use Rattle.rulebook.specs.Rows.{blank, row_in};

use crate::row::RuleRow;
use crate::{ENTRIES_MAX, RULES_MAX};

// So many statements, rules and entries: the first `rules` rows and the first `used` entries count, and each of them
// lies within these counts.
// Stays: a rulebook is lent memory of fixed size, and no heap is used.
#[derive(Drop)]
pub struct Rulebook {
    pub width: usize,
    pub rules: usize,
    pub used: usize,
    pub rows: [RuleRow; RULES_MAX],
    pub entries: [u16; ENTRIES_MAX],
    ghost whole: { (length rows ≡ 2048) × (length entries ≡ 8192) },
    ghost limits: { (width ≤ 512) × (rules ≤ 2048) × (used ≤ 8192) },
    ghost sound: { (k : ℕ) → k < rules → row_in width used (slice_index_or rows k blank) ≡ true },
    ghost entered: { (k : ℕ) → k < used → slice_index entries k < 2 * width },
}

impl Rulebook {
    // The rows that are counted.
    pub fn rows(&self) -> &[RuleRow]
        ensures { result.now ≡ take self.now.rules self.now.rows }
    {
        &self.rows[..self.rules]
    }

    // The entries that are counted.
    pub fn entries(&self) -> &[u16]
        ensures { result.now ≡ take self.now.used self.now.entries }
    {
        &self.entries[..self.used]
    }
}
