// The two texts of a draft.
ghost use Rattle.std.specs.Prelude.{◌≡◌};
ghost use Rattle.tables.specs.Numbers.{owner_number};
ghost use Rattle.tables.specs.Draft.{texts_for};

use tables::Owner;

// How many texts a draft takes.
pub(crate) const TEXTS_MAX: u8 = 2;

// How many bytes a text may have.
pub const TEXT_MAX: usize = 65536;

// The region's text, and the harbour's.
#[derive(Clone, Copy, Debug, PartialEq, Eq)]
pub struct Texts<'a> {
    pub region: &'a [u8],
    pub harbour: &'a [u8],
}

// The two texts, and whose is read.
#[derive(Clone, Copy, Debug, PartialEq, Eq)]
pub struct Reading<'a> {
    pub texts: Texts<'a>,
    pub owner: Owner,
}

impl<'a> Texts<'a> {
    ghost use Rattle.text.specs.View.{text_whose};

    pub(crate) fn of(self, owner: Owner) -> &'a [u8]
        ensures { result.now ≡ text_whose owner self.entry }
    {
        match owner {
            Owner::Region => self.region,
            Owner::Harbour => self.harbour,
        }
    }
}

impl<'a> Reading<'a> {
    ghost use Rattle.text.specs.View.{texts_of};

    // The earlier text is not looked at where the text is the region's.
    pub(crate) fn new(owner: Owner, text: &'a [u8], earlier: &'a [u8]) -> Self
        ensures { texts_of result ≡ texts_for (owner_number owner) text.now earlier.now }
    {
        let texts = match owner {
            Owner::Region => Texts {
                region: text,
                harbour: &[],
            },
            Owner::Harbour => Texts {
                region: earlier,
                harbour: text,
            },
        };
        Reading { texts, owner }
    }
}
