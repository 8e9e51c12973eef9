// Tests of the readings of rulebooks that are easily got wrong, each over a sealed rulebook.
#![tactic(auto)]

ghost use Rattle.std.specs.Prelude.{◌≡◌};

use base::Outcome;
use bases::extend_rulebook;
use rulebook::SealRefusal;
use rulebook::row::RuleRow;
use rulebook::sealed::Rulebook;
use source::Refusal;

// Why rules over so many names do not extend a partial: they are not sealed, or the partial is refused.
#[derive(Clone, Copy, Debug, PartialEq, Eq)]
pub enum Failure {
    Unsealed(SealRefusal),
    Refused(Refusal),
}

impl From<SealRefusal> for Failure {
    ghost use Rattle.readings.specs.declared.Failure.TheVariants.{Unsealed};

    ghost from_gives = { λ refusal failure. failure ≡ Unsealed refusal };

    fn from(refusal: SealRefusal) -> Self {
        Failure::Unsealed(refusal)
    }
}

impl From<Refusal> for Failure {
    ghost use Rattle.readings.specs.declared.Failure.TheVariants.{Refused};

    ghost from_gives = { λ refusal failure. failure ≡ Refused refusal };

    fn from(refusal: Refusal) -> Self {
        Failure::Refused(refusal)
    }
}

// Seals the tables and extends the partial by them.
pub fn extended(
    names: usize,
    rows: &[RuleRow],
    entries: &[u16],
    partial: &mut [u8],
) -> Result<Outcome, Failure> {
    let mut book = Rulebook::empty();
    book.seal(names, rows.len(), entries.len(), rows, entries)?;
    Ok(extend_rulebook(&book, partial)?)
}

// A rule with a head.
pub fn headed(head: u16, first: u16, count: u16) -> RuleRow
    ensures { result ≡ record { head = head; first = first; count = count } }
{
    RuleRow { head, first, count }
}

// A rule without a head.
pub fn headless(first: u16, count: u16) -> RuleRow
    ensures { result ≡ record { head = RuleRow.NO_HEAD; first = first; count = count } }
{
    headed(RuleRow::NO_HEAD, first, count)
}

#[cfg(test)]
mod tests;
