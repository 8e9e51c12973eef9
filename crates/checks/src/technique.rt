// The techniques of settling, by their names.
ghost use Rattle.std.specs.Prelude.{◌≡◌};
ghost use Rattle.checks.specs.Named.{technique_of, limit_by};

use std::str::FromStr;
use uses::SheetRefusal;

#[derive(Clone, Copy, Debug, PartialEq, Eq)]
pub enum Technique {
    // all open candidates
    Over,
    // the lowest one
    Under,
    // the lowest ones up to the size
    Chunk,
}

impl FromStr for Technique {
    type Err = SheetRefusal;

    ghost from_str_gives = { λ name r. r ≡ technique_of name };

    fn from_str(name: &str) -> Result<Self, SheetRefusal> {
        match name {
            "over" => Ok(Technique::Over),
            "under" => Ok(Technique::Under),
            "chunk" => Ok(Technique::Chunk),
            _ => Err(SheetRefusal::Name),
        }
    }
}

impl Technique {
    // How many of the lowest open candidates it marks, at most.
    pub fn limit(self, size: usize, width: usize) -> Result<usize, SheetRefusal>
        ensures { result ≡ limit_by self size width }
    {
        match self {
            Technique::Over => Ok(width),
            Technique::Under => Ok(1),
            Technique::Chunk if size == 0 => Err(SheetRefusal::Group),
            Technique::Chunk => Ok(size),
        }
    }
}
