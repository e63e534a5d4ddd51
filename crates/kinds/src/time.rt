// What a kind of time owes: its meaning as a row of whole numbers, and answers by rows.
// Two values with one row count as the same, and nothing tells them apart here.
ghost use Rattle.std.specs.Prelude.{◌≡◌, ℕ, ◌≤◌, Decides};
ghost use Rattle.kinds.specs.declared.time.Unwritten.TheVariants.{TooLarge};
ghost use Rattle.kinds.specs.Kinds.{Exact, ReadsRow, WritesRow};
ghost use Rattle.kinds.specs.Rows.{Row, zeros, plus, opposite, order, Within};

use columns::NoRoom;
use std::cmp::Ordering;

// The largest size of a number of a sum or an opposite.
pub const MOST: i64 = 1_000_000_000_000;

pub trait Time: Copy {
    // How many numbers make up a value. A clause names the constant by the ghost member beside it.
    const COUNT: usize;

    ghost COUNT: { ℕ };

    ghost row: { Self → Row COUNT };

    fn numbers() -> usize
        ensures value { result ≡ COUNT }
    {
        Self::COUNT
    }

    fn zero() -> Self
        ensures value { row result ≡ zeros COUNT };

    fn sum(self, other: Self) -> Option<Self>
        ensures value { Exact COUNT row (plus COUNT (row self) (row other)) result };

    fn opposite(self) -> Option<Self>
        ensures value { Exact COUNT row (opposite COUNT (row self)) result };

    fn compare(self, other: Self) -> Ordering
        ensures value { result ≡ order COUNT (row self) (row other) };

    // Whether every number is at most `limit` in size.
    fn within(self, limit: u64) -> bool
        ensures value { Decides result (Within COUNT limit (row self)) };

    ghost counted: { (1 ≤ COUNT) × (COUNT ≤ 4) };
}

// Why a value is not written. The columns are then as before.
#[derive(Clone, Copy, Debug, PartialEq, Eq)]
pub enum Unwritten {
    // They are not as many as the kind has.
    WrongWidth,
    // A number is too large for its field.
    TooLarge,
}

// A number with no room in its field is too large for it.
impl From<NoRoom> for Unwritten {
    ghost from_gives = { λ _ unwritten. unwritten ≡ TooLarge };

    fn from(_: NoRoom) -> Unwritten {
        Unwritten::TooLarge
    }
}

// How many columns a number has.
pub const FIELD: usize = 12;

// A kind of time that is also read from columns and written into them, a field for each number.
pub trait Written: Time {
    fn read(columns: &[u8]) -> Option<Self>
        ensures value { ReadsRow Self.Time.COUNT Self.Time.row columns.now result };

    fn write(self, columns: &mut [u8]) -> Result<(), Unwritten>
        ensures value { WritesRow Self.Time.COUNT (Self.Time.row self) columns.old columns.new result };
}
