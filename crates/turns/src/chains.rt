// All cancelled and backchain: what the rules of one statement force. They are found by a chain through the rows of each head.
ghost use Rattle.std.specs.Prelude.{◌≡◌, ℕ, ◌<◌, ◌≤◌, length, slice_index_or, slice_set};
ghost use Rattle.std.proofs.Props.{props};
ghost use Rattle.source.specs.Plans.{UpTo, Partial};
ghost use Rattle.closing.specs.Sets.{Codes};
ghost use Rattle.turns.specs.Chain.{Tops, Links, Ends};
ghost use Rattle.turns.specs.Table.{Hit, LawTurn, AllOf, HoldAt};

use crate::table::Table;
use crate::{failing, is_contradicted};
use closing::{Few, Turned, decide};
use rulebook::{NAMES_MAX, RULES_MAX};
use source::bytes::HOLDS;

// For each statement the newest row with it as head, for each row the next older one with the same head.
#[derive(Clone, Copy)]
struct Chains {
    newest: [Option<u16>; NAMES_MAX],
    older: [Option<u16>; RULES_MAX],
}

// A table with the chains of its rows.
#[derive(Drop)]
pub struct ChainedTable<'a> {
    pub table: Table<'a>,
    chains: Chains,
    ghost few: { length table.rows.now ≤ 2048 },
    ghost long: { (length chains.newest ≡ 512) × (length chains.older ≡ 2048) },
    ghost tops: { Tops table.rows.now (length table.rows.now) chains.newest } by { Prim.hlevel props },
    ghost links: { Links table.rows.now (length table.rows.now) 512 chains.older } by { Prim.hlevel props },
    ghost ends: { Ends table.rows.now (length table.rows.now) 512 chains.older } by { Prim.hlevel props },
}

impl Chains {
    ghost use Rattle.turns.specs.Chain.{Chained};

    // Joins a row to the chain of its head.
    fn join(&mut self, row: usize, head: usize)
        requires row { row < length self.old.older }
        requires few { row < 65535 }
        requires head { head < length self.old.newest }
        ensures newest { self.new.newest ≡ slice_set self.old.newest head (Some row) }
        ensures older { self.new.older ≡ slice_set self.old.older row (slice_index_or self.old.newest head None) }
    {
        self.older[row] = self.newest[head];
        self.newest[head] = Some(row as u16);
    }

    // The chains of the rows of a table.
    fn of(table: &Table) -> Chains
        requires { length table.now.rows.now ≤ 2048 }
        ensures { Chained table.now.rows.now (length table.now.rows.now) result.newest result.older }
    {
        let mut chains = Chains {
            newest: [None; NAMES_MAX],
            older: [None; RULES_MAX],
        };
        for (i, row) in table.rows.iter().enumerate() {
            if let Some(s) = table.head(*row) {
                chains.join(i, s);
            }
        }
        chains
    }
}

// Whether an entry of a body is contradicted.
fn body_cancelled(p: &[u8], body: &[u16]) -> bool
    requires { Codes (length p.now) body.now }
    ensures { Hit p.now body.now result }
{
    body.iter().any(|&e| is_contradicted(p, e))
}

// Makes every entry of a body hold.
fn hold_body(p: &mut [u8], body: &[u16]) -> Turned
    requires bytes { UpTo 2 p.old }
    requires codes { Codes (length p.old) body.now }
    ensures { LawTurn (AllOf (HoldAt body.now) (length body.now)) p.old p.new result }
{
    let mut changed = false;
    for e in body {
        changed |= decide(p, *e)?;
    }
    Ok(changed)
}

impl<'a> ChainedTable<'a> {
    ghost use Rattle.turns.specs.Table.{SupportIs, StatementKept};

    // A table of at most 2,048 rows, chained.
    pub fn new(table: Table<'a>) -> ChainedTable<'a>
        requires { length table.rows.now ≤ 2048 }
        ensures { result.table ≡ table.entry }
    {
        ChainedTable {
            table,
            chains: Chains::of(&table),
        }
    }

    // The rows that support a statement: they have it as head and are not cancelled.
    fn supporters(&self, p: &[u8], s: usize) -> Few<usize>
        requires at { s < 512 }
        requires wide { length p.now ≡ self.now.table.width }
        ensures { SupportIs p.now self.now.table.rows.now self.now.table.entries.now s result }
    {
        let mut only = None;
        let mut next = self.chains.newest[s];
        while let Some(i) = next {
            let i = i as usize;
            if !body_cancelled(p, self.table.body(self.table.rows[i])) {
                if only.is_some() {
                    return Few::Several;
                }
                only = Some(i);
            }
            next = self.chains.older[i];
        }
        only.map_or(Few::Nothing, Few::Only)
    }

    // All cancelled and backchain for one statement.
    pub fn statement_step(&self, p: &mut [u8], s: usize) -> Turned
        requires at { s < self.now.table.width }
        requires partial { Partial self.now.table.width p.old }
        ensures { LawTurn (StatementKept self.now.table.rows.now self.now.table.entries.now s) p.old p.new result }
    {
        match self.supporters(p, s) {
            Few::Nothing => decide(p, failing(s)),
            Few::Only(i) => {
                if p[s] == HOLDS {
                    hold_body(p, self.table.body(self.table.rows[i]))
                } else {
                    Ok(false)
                }
            }
            Few::Several => Ok(false),
        }
    }
}
