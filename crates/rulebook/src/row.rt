// A rule as it stands in a table.
ghost use Rattle.std.specs.Prelude.{◌≡◌, ◌+◌, ◌<◌, ◌≤◌, [], length, take, drop, if◌then◌else◌, ◌==◌};

// A head statement, or NO_HEAD, and a run of entries: so many from the first on.
#[derive(Clone, Copy, Debug, PartialEq, Eq)]
pub struct RuleRow {
    pub head: u16,
    pub first: u16,
    pub count: u16,
}

impl RuleRow {
    ghost use Rattle.rulebook.specs.Rows.{row_in};

    pub const EMPTY: RuleRow = RuleRow {
        head: 0,
        first: 0,
        count: 0,
    };

    // Stays: the tables are lent by callers, and their rows have no room for an Option.
    pub const NO_HEAD: u16 = 65535;

    // The statement that the rule is about, or none.
    pub fn head(self) -> Option<u16>
        ensures { result ≡ (if self.head == RuleRow.NO_HEAD then None else Some self.head) }
    {
        (self.head != Self::NO_HEAD).then_some(self.head)
    }

    // Its run among the entries of its table; none of it, if it is not all among them.
    pub fn body(self, entries: &[u16]) -> &[u16]
        ensures run { self.first + self.count ≤ length entries.now → result.now ≡ take self.count (drop self.first entries.now) }
        ensures past { length entries.now < self.first + self.count → result.now ≡ [] }
    {
        let first = self.first as usize;
        entries
            .get(first..first + self.count as usize)
            .unwrap_or(&[])
    }

    // Whether its head is missing or among so many statements, and its run among so many entries.
    pub fn is_within(self, width: usize, used: usize) -> bool
        ensures { result ≡ row_in width used self }
    {
        self.head().is_none_or(|s| (s as usize) < width)
            && self.first as usize + self.count as usize <= used
    }
}
