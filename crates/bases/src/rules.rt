// The rules of a sealed rulebook.
ghost use Rattle.std.proofs.Props.{props};
ghost use Rattle.turns.specs.Meaning.{Tables};

use rulebook::sealed::Rulebook;
use turns::chains::ChainedTable;

// One rule for each row, one for each statement, one for all unfounded sets. The chained table is the rulebook's, which
// stands beside it so that what it is over can be read off and said.
#[derive(Drop)]
pub struct RulebookRules<'a> {
    pub book: &'a Rulebook,
    pub chained: ChainedTable<'a>,
    ghost tied: { Tables book.now chained.table } by { Prim.hlevel props },
}
