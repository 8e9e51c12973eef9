// The names of statements, as parts of the two texts.
ghost use Rattle.std.specs.Prelude.{◌≡◌, ℕ, ◌<◌, length, take, IfSome};
ghost use Rattle.tables.specs.Names.{same_name, name_of, statement_name, is_name, found};
ghost use Rattle.text.specs.View.{bytes_of};

use crate::front::front;
use crate::texts::Texts;
use tables::{NameRow, Owner};

// Whether the two names are the same.
fn same_name(a: &[u8], b: &[u8]) -> bool
    ensures { result ≡ same_name a.now b.now }
{
    a == b
}

// The part of its text that a row names, if it names any.
fn part<'a>(row: NameRow, texts: Texts<'a>) -> Option<&'a [u8]>
    ensures { bytes_of result ≡ name_of row texts.entry.region.now texts.entry.harbour.now }
{
    let text = texts.of(Owner::try_from(row.text).ok()?);
    let first = usize::from(row.first);
    text.get(first..first + usize::from(row.size))
        .filter(|name| !name.is_empty())
}

fn is_named(row: NameRow, texts: Texts, name: &[u8]) -> bool
    ensures { result ≡ is_name texts.entry.region.now texts.entry.harbour.now name.now row }
{
    part(row, texts).is_some_and(|bytes| same_name(bytes, name))
}

// The lowest row that has the name.
pub(crate) fn first_named(rows: &[NameRow], texts: Texts, name: &[u8]) -> Option<usize>
    ensures finds { result ≡ found texts.entry.region.now texts.entry.harbour.now name.now 0 rows.now }
    ensures below { IfSome result (λ n. n < length rows.now) }
{
    rows.iter().position(|row| is_named(*row, texts, name))
}

// The statement of that name among the first `count` rows: the lowest, or nothing.
pub fn find(name: &[u8], count: usize, rows: &[NameRow], texts: Texts) -> Option<usize>
    ensures finds { result ≡ found texts.entry.region.now texts.entry.harbour.now name.now 0 (take count rows.now) }
    ensures below { IfSome result (λ n. (n < count) × (n < length rows.now)) }
{
    first_named(front(rows, count), texts, name)
}

// The name of a statement below `count`, as a part of the text that its row speaks of; or nothing.
pub fn name_of<'a>(
    statement: usize,
    count: usize,
    rows: &[NameRow],
    texts: Texts<'a>,
) -> Option<&'a [u8]>
    ensures { bytes_of result ≡ statement_name texts.entry.region.now texts.entry.harbour.now statement count rows.now }
{
    part(*front(rows, count).get(statement)?, texts)
}
