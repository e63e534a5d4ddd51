// Time as a count of picoseconds and a guard count, which tells apart ends at one instant:
// a high end (w, -1) means strictly below w, and a low end (w, 1) strictly above it.
ghost use Rattle.std.proofs.Common.{rules};

use crate::time::{FIELD, Time, Unwritten, Written};
use crate::{field, number};
use std::cmp::Ordering;

// Its two numbers have names, which an array of any length for all kinds would not have.
#[derive(Clone, Copy, Debug, PartialEq, Eq, PartialOrd, Ord)]
pub struct Guarded {
    pub picoseconds: i64,
    pub guard: i64,
}

impl Time for Guarded {
    const COUNT: usize = 2;

    ghost COUNT = { 2 };

    ghost row = { λ t. (t.picoseconds, (t.guard, tt)) };

    ghost counted = { Prim.search rules };

    fn zero() -> Guarded {
        Guarded {
            picoseconds: 0,
            guard: 0,
        }
    }

    fn sum(self, other: Guarded) -> Option<Guarded> {
        Some(Guarded {
            picoseconds: number::sum(self.picoseconds, other.picoseconds)?,
            guard: number::sum(self.guard, other.guard)?,
        })
    }

    fn opposite(self) -> Option<Guarded> {
        Some(Guarded {
            picoseconds: number::opposite(self.picoseconds)?,
            guard: number::opposite(self.guard)?,
        })
    }

    fn compare(self, other: Guarded) -> Ordering {
        self.cmp(&other)
    }

    fn within(self, limit: u64) -> bool {
        number::within(self.picoseconds, limit) && number::within(self.guard, limit)
    }
}

impl Written for Guarded {
    fn read(columns: &[u8]) -> Option<Guarded> {
        let (first, second) = columns.split_at_checked(FIELD)?;
        Some(Guarded {
            picoseconds: field::read(first)?,
            guard: field::read(second)?,
        })
    }

    fn write(self, columns: &mut [u8]) -> Result<(), Unwritten> {
        // What is admitted has room, so neither number is refused.
        field::admit(self, columns.len())?;
        let (first, second) = columns.split_at_mut(FIELD);
        columns::write(self.picoseconds, first)?;
        columns::write(self.guard, second)?;
        Ok(())
    }
}
