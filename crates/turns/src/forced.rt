// Forward and contraposition: what one rule forces.
ghost use Rattle.std.specs.Prelude.{◌≡◌, ◌<◌, ◌≤◌, length, IfSome, MatchBool};
ghost use Rattle.source.specs.Plans.{UpTo, Partial};
ghost use Rattle.closing.specs.Fews.{Lacks};
ghost use Rattle.closing.specs.Sets.{holds, Codes};
ghost use Rattle.stable.specs.Books.{HeadFails};
ghost use Rattle.turns.specs.Meaning.{lifted};
ghost use Rattle.turns.specs.Table.{LawTurn, RowKept, head_in, rule_from};

use crate::table::Table;
use crate::{holding, holds_in};
use closing::{Clash, Few, Turned, contrary_of, decide, exceptions};
use rulebook::row::RuleRow;
use source::bytes::FAILS;

// Which entries of a body, read as a set, do not hold.
fn lacking(p: &[u8], body: &[u16]) -> Few<u16>
    requires { Codes (length p.now) body.now }
    ensures { Lacks (holds p.now) body.now result }
{
    exceptions(body, |e| holds_in(p, e))
}

// Whether a rule's head fails or is missing. By its byte, so that it asks for no width of the partial.
fn head_fails(p: &[u8], head: Option<u16>) -> bool
    requires { IfSome head (λ s. s < length p.now) }
    ensures { MatchBool result (HeadFails (holds p.now) (lifted head)) (HeadFails (holds p.now) (lifted head) → ⊥) }
{
    head.is_none_or(|s| p[s as usize] == FAILS)
}

// Forward and contraposition for one rule. Its head is read only where it matters: mostly several entries are lacking.
fn rule_step(p: &mut [u8], row: RuleRow, body: &[u16]) -> Turned
    requires narrow { length p.old ≤ 512 }
    requires bytes { UpTo 2 p.old }
    requires headed { IfSome (head_in row) (λ s. s < length p.old) }
    requires codes { Codes (length p.old) body.now }
    ensures { LawTurn (λ C. RowKept C (rule_from (head_in row) body.now)) p.old p.new result }
{
    match lacking(p, body) {
        Few::Nothing => match row.head() {
            Some(s) => decide(p, holding(s as usize)),
            None => {
                if body.is_empty() {
                    Ok(false)
                } else {
                    Err(Clash)
                }
            }
        },
        Few::Only(e) => {
            if head_fails(p, row.head()) {
                decide(p, contrary_of(e))
            } else {
                Ok(false)
            }
        }
        Few::Several => Ok(false),
    }
}

impl<'a> Table<'a> {
    ghost use Rattle.turns.specs.Table.{rule_at};

    // Forward and contraposition for the rule in row i.
    pub fn row_step(&self, p: &mut [u8], i: usize) -> Turned
        requires row { i < length self.now.rows.now }
        requires partial { Partial self.now.width p.old }
        ensures { LawTurn (λ C. RowKept C (rule_at self.now.rows.now self.now.entries.now i)) p.old p.new result }
    {
        let row = self.rows[i];
        rule_step(p, row, self.body(row))
    }
}
