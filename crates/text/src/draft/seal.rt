// Seals a draft: its rulebook is then searched, and takes no more texts.
ghost use Rattle.std.specs.Prelude.{◌≡◌};
ghost use Rattle.text.specs.Seals.{Seals};

use crate::draft::Draft;
use rulebook::SealRefusal;
use rulebook::row::RuleRow;
use rulebook::sealed::Rulebook;

// A draft that was not sealed, handed back, and why.
#[derive(Debug, Drop)]
pub struct Unsealed {
    pub draft: Draft,
    pub refusal: SealRefusal,
}

impl Draft {
    // Fills the place with the draft's rules and entries, whole; or hands the draft back, and leaves the place.
    pub fn seal(
        self,
        rules: &[RuleRow],
        entries: &[u16],
        place: &mut Rulebook,
    ) -> Result<(), Unsealed>
        ensures { Seals self rules.now entries.now place.old result place.new }
    {
        let filled = self.filled;
        place
            .seal(filled.names, filled.rules, filled.entries, rules, entries)
            .map_err(|refusal| Unsealed {
                draft: self,
                refusal,
            })
    }
}
