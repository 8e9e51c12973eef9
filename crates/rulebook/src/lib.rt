// Sealed rulebooks: rows of rules and entries that lie within their counts, and the sealing that makes sure of it.
#![tactic(auto)]

ghost use Rattle.std.specs.Prelude.{◌≡◌, ◌<◌, ◌≤◌, length, take, replicate, IfOk, OnErr};
ghost use Rattle.rulebook.specs.Rows.{blank, padded, rows_in, entries_in};
ghost use Rattle.rulebook.specs.Sealing.{within, Sealing, number_of};

use row::RuleRow;
use sealed::Rulebook;

pub mod row;
pub mod sealed;

pub const NAMES_MAX: usize = 512;

pub const RULES_MAX: usize = 2048;

pub const ENTRIES_MAX: usize = 8192;

// Why tables are not sealed: one is short, or a head, run or entry is outside its counts.
#[derive(Clone, Copy, Debug, PartialEq, Eq)]
pub enum SealRefusal {
    Outside = 26,
}

impl SealRefusal {
    pub fn number(self) -> u8
        ensures { result ≡ number_of self }
    {
        self as u8
    }
}

fn rows_in(width: usize, used: usize, rows: &[RuleRow]) -> bool
    ensures { result ≡ rows_in width used rows.now }
{
    rows.iter().all(|r| r.is_within(width, used))
}

fn entries_in(width: usize, entries: &[u16]) -> bool
    requires { width ≤ NAMES_MAX }
    ensures { result ≡ entries_in width entries.now }
{
    entries.iter().all(|e| (*e as usize) < 2 * width)
}

// Whether the rows and entries are no more than their limits and lie within their counts.
fn is_sealable(names: usize, rows: &[RuleRow], entries: &[u16]) -> bool
    ensures { result ≡ within names rows.now entries.now }
{
    names <= NAMES_MAX
        && rows.len() <= RULES_MAX
        && entries.len() <= ENTRIES_MAX
        && rows_in(names, entries.len(), rows)
        && entries_in(names, entries)
}

// The first so many items, if there are as many.
fn counted<T>(items: &[T], count: usize) -> Result<&[T], SealRefusal>
    ensures ok { IfOk result (λ front. (count ≤ length items.now) × (front.now ≡ take count items.now)) }
    ensures short { OnErr result (length items.now < count) }
{
    items.get(..count).ok_or(SealRefusal::Outside)
}

// The items, and after them the filler.
fn padded<T: Copy, const N: usize>(filler: T, items: &[T]) -> [T; N]
    requires { length items.now ≤ N }
    ensures { result ≡ padded N filler items.now }
{
    let mut all = [filler; N];
    all[..items.len()].copy_from_slice(items);
    all
}

impl Rulebook {
    // No statements, no rules.
    pub fn empty() -> Self
        ensures width { result.width ≡ 0 }
        ensures rules { result.rules ≡ 0 }
        ensures used { result.used ≡ 0 }
        ensures rows { result.rows ≡ replicate 2048 blank }
        ensures entries { result.entries ≡ replicate 8192 0 }
    {
        Rulebook {
            width: 0,
            rules: 0,
            used: 0,
            rows: [RuleRow::EMPTY; RULES_MAX],
            entries: [0; ENTRIES_MAX],
        }
    }

    // Writes the whole place: so many names, the first `rules` of the rows, the first `used` of the entries, and blanks;
    // a refusal leaves it.
    pub fn seal(
        &mut self,
        names: usize,
        rules: usize,
        used: usize,
        rows: &[RuleRow],
        entries: &[u16],
    ) -> Result<(), SealRefusal>
        ensures { Sealing names rules used rows.now entries.now self.old result self.new }
    {
        let rows = counted(rows, rules)?;
        let entries = counted(entries, used)?;
        if !is_sealable(names, rows, entries) {
            return Err(SealRefusal::Outside);
        }
        *self = Rulebook {
            width: names,
            rules,
            used,
            rows: padded(RuleRow::EMPTY, rows),
            entries: padded(0, entries),
        };
        Ok(())
    }
}
