// Why rows cannot be listed as plans.
ghost use Rattle.std.specs.Prelude.{◌≡◌};
ghost use Rattle.sources.specs.Numbers.{number_of};

#[derive(Clone, Copy, Debug, PartialEq, Eq)]
pub enum ListingRefusal {
    // too many statements or plans, too few or too many bytes, or a byte that is neither 1 nor 2
    Malformed = 27,
}

impl ListingRefusal {
    pub fn number(self) -> u8
        ensures { result ≡ number_of self }
    {
        self as u8
    }
}
