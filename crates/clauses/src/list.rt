// What a clause list holds.
ghost use Rattle.clauses.specs.Clauses.{ClausesOk};

use crate::run::Run;

// Clauses over lent runs and entries.
// Stays: two lifetimes, since runs and entries may be lent for different times.
#[derive(Drop)]
pub struct ClauseList<'a, 'b> {
    pub width: usize,
    pub runs: &'a [Run],
    pub entries: &'b [u16],
    ghost sound: { ClausesOk width runs.now entries.now },
}
