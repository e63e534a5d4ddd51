// Time as a count of picoseconds.
ghost use Rattle.std.proofs.Common.{rules};

use crate::time::{Time, Unwritten, Written};
use crate::{field, number};
use std::cmp::Ordering;

#[derive(Clone, Copy, Debug, PartialEq, Eq, PartialOrd, Ord)]
pub struct Plain {
    pub picoseconds: i64,
}

impl Time for Plain {
    const COUNT: usize = 1;

    ghost COUNT = { 1 };

    ghost row = { λ t. (t.picoseconds, tt) };

    ghost counted = { Prim.search rules };

    fn zero() -> Plain {
        Plain { picoseconds: 0 }
    }

    fn sum(self, other: Plain) -> Option<Plain> {
        Some(Plain {
            picoseconds: number::sum(self.picoseconds, other.picoseconds)?,
        })
    }

    fn opposite(self) -> Option<Plain> {
        Some(Plain {
            picoseconds: number::opposite(self.picoseconds)?,
        })
    }

    fn compare(self, other: Plain) -> Ordering {
        self.cmp(&other)
    }

    fn within(self, limit: u64) -> bool {
        number::within(self.picoseconds, limit)
    }
}

impl Written for Plain {
    fn read(columns: &[u8]) -> Option<Plain> {
        Some(Plain {
            picoseconds: field::read(columns)?,
        })
    }

    fn write(self, columns: &mut [u8]) -> Result<(), Unwritten> {
        field::admit(self, columns.len())?;
        columns::write(self.picoseconds, columns)?;
        Ok(())
    }
}
