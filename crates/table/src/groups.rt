// Groups in tables as long as the sheet's.
ghost use Rattle.std.specs.Prelude.{◌≡◌, ℕ, ◌≤◌, length, slice_index};

use crate::line::LINES;

// The group in a table with a byte for each line.
pub fn widened(group: &[u8]) -> [u8; LINES]
    requires { length group.now ≤ 512 }
    ensures { (k : ℕ) → slice_index result k ≡ slice_index group.now k }
{
    let mut marks = [0; LINES];
    marks[..group.len()].copy_from_slice(group);
    marks
}
