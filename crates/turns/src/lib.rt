// The turns of the five rules over tables of rules and entries.
#![tactic(auto)]

ghost use Rattle.std.specs.Prelude.{◌≡◌, ◌+◌, ◌*◌, ◌<◌, length};
ghost use Rattle.closing.specs.Sets.{contrary, holds};

pub mod chains;
mod forced;
mod founded;
pub mod table;

// The entry that says that a statement holds.
fn holding(s: usize) -> u16
    requires { s < 512 }
    ensures { result ≡ 2 * s }
{
    2 * (s as u16)
}

// The entry that says that a statement fails.
fn failing(s: usize) -> u16
    requires { s < 512 }
    ensures { result ≡ 2 * s + 1 }
{
    2 * (s as u16) + 1
}

// Whether an entry of a table holds in a partial. Its statement is known to be there, so that no bound is tested: this
// runs for each entry at each turn.
fn holds_in(p: &[u8], e: u16) -> bool
    requires { e < 2 * length p.now }
    ensures { result ≡ holds p.now e }
{
    p[(e / 2) as usize] == (1 + e % 2) as u8
}

// Whether an entry of a table is contradicted by a partial: its statement has the other value.
fn is_contradicted(p: &[u8], e: u16) -> bool
    requires { e < 2 * length p.now }
    ensures { result ≡ holds p.now (contrary e) }
{
    p[(e / 2) as usize] == (2 - e % 2) as u8
}
