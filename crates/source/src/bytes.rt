// Tests on partials, groups and plans as bytes that every source needs.
ghost use Rattle.std.specs.Prelude.{◌≡◌, Decides, MatchBool, slice_index};
ghost use Rattle.source.specs.Plans.{UpTo, Agrees, Marks, FailsMarked};

// The bytes of a partial. A plan has the last two only, and a pin is one of them.
// Stays: partials, pins, groups and plans are lent as bytes, so these are numbers, and a byte over the largest is refused.
pub const UNDECIDED: u8 = 0;

pub const HOLDS: u8 = 1;

pub const FAILS: u8 = 2;

// The bytes of a group: that of a marked statement, and that of any other.
pub const MARKED: u8 = 1;

pub const UNMARKED: u8 = 0;

// The byte at i, and 0 past the end.
pub fn byte_at(bytes: &[u8], i: usize) -> u8
    ensures { result ≡ slice_index bytes.now i }
{
    bytes.get(i).copied().unwrap_or(0)
}

// Whether no byte is over n.
pub fn up_to(bytes: &[u8], n: u8) -> bool
    ensures { Decides result (UpTo n bytes.now) }
{
    bytes.iter().all(|&byte| byte <= n)
}

// Whether the group marks any statement.
pub fn marks_any(group: &[u8]) -> bool
    ensures { MatchBool result (Marks group.now) (Marks group.now → ⊥) }
{
    group.contains(&MARKED)
}

// Whether the plan has the pins' byte wherever that is not 0.
pub fn agrees(pins: &[u8], plan: &[u8]) -> bool
    ensures { MatchBool result (Agrees pins.now plan.now) (Agrees pins.now plan.now → ⊥) }
{
    pins.iter()
        .enumerate()
        .all(|(i, &pin)| pin == UNDECIDED || byte_at(plan, i) == pin)
}

// Whether the plan fails at a statement that the group marks.
pub fn fails_marked(group: &[u8], plan: &[u8]) -> bool
    ensures { MatchBool result (FailsMarked group.now plan.now) (FailsMarked group.now plan.now → ⊥) }
{
    group
        .iter()
        .enumerate()
        .any(|(i, &mark)| mark == MARKED && byte_at(plan, i) == FAILS)
}
