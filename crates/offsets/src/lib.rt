// A kind of time for tests only. Many of its values have one row,
// so nothing that serves every kind can lean on equal rows being equal values.
#![tactic(auto)]

ghost use Rattle.std.specs.Prelude.{◌≡◌};
ghost use Rattle.offsets.specs.Offsets.{whole, row, Gives};
ghost use Rattle.std.proofs.Common.{rules};

use kinds::plain::Plain;
use kinds::time::{MOST, Time, Unwritten, Written};
use std::cmp::Ordering;

// The offset of a sum or an opposite: such a value is then seldom the one that a test would write down.
const APART: i64 = 1;

#[derive(Clone, Copy, Debug)]
pub struct Offset {
    pub number: i64,
    pub offset: i64,
}

// The number that a value means, which may lie beyond 64 bits.
impl From<Offset> for i128 {
    ghost from_gives = { λ value number. number ≡ whole value };

    fn from(value: Offset) -> i128 {
        i128::from(value.number) + i128::from(value.offset)
    }
}

// A sum or an opposite is absent and has no error, so this is no `TryFrom`. The test stands before the cast that it allows.
fn given(number: i128) -> Option<Offset>
    ensures value { Gives number result }
{
    if number.unsigned_abs() > u128::from(MOST.unsigned_abs()) {
        return None;
    }
    Some(Offset {
        number: number as i64 - APART,
        offset: APART,
    })
}

impl Time for Offset {
    const COUNT: usize = 1;

    ghost COUNT = { 1 };

    ghost row = { row };

    ghost counted = { Prim.search rules };

    fn zero() -> Offset {
        Offset {
            number: 0,
            offset: 0,
        }
    }

    fn sum(self, other: Offset) -> Option<Offset> {
        given(i128::from(self) + i128::from(other))
    }

    fn opposite(self) -> Option<Offset> {
        given(-i128::from(self))
    }

    fn compare(self, other: Offset) -> Ordering {
        i128::from(self).cmp(&i128::from(other))
    }

    fn within(self, limit: u64) -> bool {
        i128::from(self).unsigned_abs() <= u128::from(limit)
    }
}

impl Written for Offset {
    fn read(columns: &[u8]) -> Option<Offset> {
        let plain = Plain::read(columns)?;
        Some(Offset {
            number: plain.picoseconds,
            offset: 0,
        })
    }

    // A number beyond 64 bits is too large, and so is the one that it saturates to.
    fn write(self, columns: &mut [u8]) -> Result<(), Unwritten> {
        let picoseconds = self.number.saturating_add(self.offset);
        Plain { picoseconds }.write(columns)
    }
}
