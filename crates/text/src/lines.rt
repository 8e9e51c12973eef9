// The lines of a text.
ghost use Rattle.std.specs.Prelude.{◌≡◌};
ghost use Rattle.tables.specs.Draft.{line_of};

use crate::front::front;
use words::ends_line;

// 1 plus the line ends before the place.
pub(crate) fn line_of(text: &[u8], at: usize) -> usize
    ensures { result ≡ line_of text.now at }
{
    // Stays: a loop, since `filter` branches at each byte, and a late fault took half as long again.
    let mut line = 1;
    for &b in front(text, at) {
        line += usize::from(ends_line(b));
    }
    line
}
