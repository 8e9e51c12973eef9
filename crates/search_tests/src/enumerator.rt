// The first serving row by running through all rows: it knows nothing of bases, extending or cutting.
ghost use Rattle.std.specs.Prelude.{◌≤◌};

// The bytes of rows, pins and groups.
// Stays: figures of its own, since what is compared with the library takes nothing from it.
const UNDECIDED: u8 = 0;

pub const HOLDS: u8 = 1;

pub const FAILS: u8 = 2;

pub const MARKED: u8 = 1;

// Tells the plans among whole rows.
pub trait Rows {
    fn is_plan(&self, row: &[u8]) -> bool;
}

// How many strings of so many digits there are, with digits up to the top.
pub fn strings(length: usize, top: u8) -> usize {
    (0..length).fold(1, |n: usize, _| n.saturating_mul(usize::from(top) + 1))
}

// The string with the number, as that number's digits, the lowest first.
pub fn string<const N: usize>(number: usize, top: u8) -> [u8; N]
    requires { N ≤ 8 }
{
    let base = usize::from(top) + 1;
    let mut rest = number;
    let mut digits = [0; N];
    for digit in digits.iter_mut() {
        *digit = (rest % base) as u8;
        rest /= base;
    }
    digits
}

// The row with the number, in the order of plans, from the one where all fail on.
fn row<const N: usize>(number: usize) -> [u8; N]
    requires { N ≤ 8 }
{
    let mut row = string(number, 1);
    row.reverse();
    for byte in row.iter_mut() {
        *byte = if *byte == 0 { FAILS } else { HOLDS };
    }
    row
}

// Whether a row agrees with the pins and fails at a marked statement, if there is one.
fn is_wanted(pins: &[u8], group: &[u8], row: &[u8]) -> bool {
    let agrees = pins
        .iter()
        .zip(row)
        .all(|(&pin, &byte)| pin == UNDECIDED || pin == byte);
    let fails = group
        .iter()
        .zip(row)
        .any(|(&mark, &byte)| mark == MARKED && byte == FAILS);
    agrees && (fails || !group.contains(&MARKED))
}

// The first row that is a plan and wanted.
pub fn first_row<const N: usize, T: Rows>(rows: &T, pins: &[u8], group: &[u8]) -> Option<[u8; N]>
    requires { N ≤ 8 }
{
    for number in 0..strings(N, 1) {
        let row = row::<N>(number);
        if rows.is_plan(&row) && is_wanted(pins, group, &row) {
            return Some(row);
        }
    }
    None
}
