// Whole numbers in columns of text, of every length: right-justified, with spaces before them.
// What a column stands for is not known here.
#![tactic(auto)]

ghost use Rattle.std.specs.Prelude.{◌≡◌, ℕ, ◌+◌, ◌*◌, ◌∷◌, length, Some, codes};
ghost use Rattle.columns.specs.Columns.{decimal, Reads, Writes, WritesAt, OneNumber, OneColumn, ReadsBack, WritesBack};
ghost use Rattle.columns.specs.Parts.{Unpadded, Measures, Names, Kept, sign, Puts};

use std::error::Error;
use std::fmt;

// Why a column gives no number.
#[derive(Clone, Copy, Debug, PartialEq, Eq)]
pub enum Unread {
    // The column shows none.
    NoNumber,
    // It shows one that does not fit the result.
    TooLarge,
}

// The column is too short for the digits and the minus.
#[derive(Clone, Copy, Debug, PartialEq, Eq)]
pub struct NoRoom;

pub fn read(column: &[u8]) -> Result<i64, Unread>
    ensures value { Reads column.now result }
    ensures one_number { OneNumber }
    ensures writes_back { WritesBack column.now result }
{
    read_numeral(after_spaces(column))
}

fn after_spaces(column: &[u8]) -> &[u8]
    ensures { Unpadded column.now result.now }
{
    let mut rest = column;
    while let [b' ', after @ ..] = rest {
        rest = after;
    }
    rest
}

fn read_numeral(text: &[u8]) -> Result<i64, Unread>
    ensures { Names text.now result }
{
    match text {
        [b'-', digits @ ..] => below_zero(magnitude(digits)?),
        digits => from_zero(magnitude(digits)?),
    }
}

// Goes on past an overflow, since a later byte may be no digit.
fn magnitude(digits: &[u8]) -> Result<u64, Unread>
    ensures { Measures digits.now result }
{
    if let [] | [b'0', _, ..] = digits {
        return Err(Unread::NoNumber);
    }
    let mut number = Some(0);
    for byte in digits {
        if !byte.is_ascii_digit() {
            return Err(Unread::NoNumber);
        }
        number = with_digit(number, *byte - b'0');
    }
    number.ok_or(Unread::TooLarge)
}

fn with_digit(front: Option<u64>, digit: u8) -> Option<u64>
    ensures { (n : ℕ) → Kept n front → Kept (n * 10 + digit) result }
{
    front?.checked_mul(10)?.checked_add(u64::from(digit))
}

fn from_zero(magnitude: u64) -> Result<i64, Unread>
    ensures { Names (decimal magnitude) result }
{
    i64::try_from(magnitude).or(Err(Unread::TooLarge))
}

// The lowest number has no counterpart above zero, so the magnitude is taken from zero.
fn below_zero(magnitude: u64) -> Result<i64, Unread>
    ensures { Names (45 ∷ decimal magnitude) result }
{
    match magnitude {
        0 => Err(Unread::NoNumber),
        _ => 0i64.checked_sub_unsigned(magnitude).ok_or(Unread::TooLarge),
    }
}

pub fn write(number: i64, column: &mut [u8]) -> Result<(), NoRoom>
    ensures value { Writes number column.old column.new result }
    ensures one_column { OneColumn }
    ensures reads_back { ReadsBack number column.new result }
{
    let magnitude = number.unsigned_abs();
    let start = column
        .len()
        .checked_sub(digit_count(magnitude))
        .ok_or(NoRoom)?;
    let (front, digits) = column.split_at_mut(start);
    put_sign(number < 0, front)?;
    put_digits(magnitude, digits);
    Ok(())
}

// Writes into the columns of a text from `start` on, `width` of them.
// Tested by hand: of a part that `get_mut` hands out nothing is said of what the text ends as.
pub fn write_at(number: i64, text: &mut [u8], start: usize, width: usize) -> Result<(), NoRoom>
    ensures value { WritesAt number start width text.old text.new result }
{
    if text.len() < start || text.len() - start < width {
        return Err(NoRoom);
    }
    write(number, &mut text[start..start + width])
}

fn digit_count(number: u64) -> usize
    ensures { result ≡ length (decimal number) }
{
    number
        .checked_ilog10()
        .map_or(1, |power| power as usize + 1)
}

fn put_sign(negative: bool, front: &mut [u8]) -> Result<(), NoRoom>
    ensures { Puts (sign negative) front.old front.new result }
{
    front.fill(b' ');
    if negative {
        // A slice pattern shows the place that is written, as `last_mut` would not.
        let [.., last] = front else {
            return Err(NoRoom);
        };
        *last = b'-';
    }
    Ok(())
}

// By place: after a loop over a reversed `iter_mut` nothing is known of what it wrote.
fn put_digits(number: u64, digits: &mut [u8])
    requires { length digits.old ≡ length (decimal number) }
    ensures { digits.new ≡ decimal number }
{
    let mut rest = number;
    for place in (0..digits.len()).rev() {
        digits[place] = b'0' + (rest % 10) as u8;
        rest /= 10;
    }
}

impl fmt::Display for NoRoom {
    ghost output = { λ _. Some (codes "the column is too short for the number") };

    fn fmt<W: fmt::Write>(&self, f: &mut fmt::Formatter<W>) -> fmt::Result {
        f.write_str("the column is too short for the number")
    }
}

impl Error for NoRoom {}
