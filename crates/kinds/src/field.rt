// The columns of a kind: a field for each number.
ghost use Rattle.kinds.specs.Numbers.{Admits, ReadsNumber};

use crate::time::{FIELD, Time, Unwritten};

// The largest size of a number that is written: eleven digits, and a column for the minus.
const WIDEST: u64 = 99_999_999_999;

// Whether so many columns take the value.
pub(crate) fn admit<T: Time>(value: T, width: usize) -> Result<(), Unwritten>
    ensures value { Admits T.Time.COUNT (T.Time.row value) width result }
{
    if width != FIELD * T::COUNT {
        return Err(Unwritten::WrongWidth);
    }
    if !value.within(WIDEST) {
        return Err(Unwritten::TooLarge);
    }
    Ok(())
}

pub(crate) fn read(column: &[u8]) -> Option<i64>
    ensures value { ReadsNumber column.now result }
{
    if column.len() != FIELD {
        return None;
    }
    columns::read(column).ok()
}
