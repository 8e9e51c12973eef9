// A clause, as a run of entries.
ghost use Rattle.std.specs.Prelude.{◌≡◌, ◌+◌};

#[derive(Clone, Copy, Debug, PartialEq, Eq)]
pub struct Run {
    pub first: u16,
    pub count: u16,
}

impl Run {
    // The place after its last entry.
    pub fn end(self) -> usize
        ensures { result ≡ self.first + self.count }
    {
        self.first as usize + self.count as usize
    }
}
