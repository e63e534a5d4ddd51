// Guarded picoseconds, as pairs of picoseconds and guard.
use crate::checks::{Numbered, check_comparisons, check_reads, check_sums, check_writes};
use kinds::guarded::Guarded;
use kinds::time::Unwritten;
use std::cmp::Ordering;
use std::test::Fail;

impl Numbered for Guarded {
    type Numbers = (i64, i64);

    type Meaning = (i64, i64);

    fn of((picoseconds, guard): (i64, i64)) -> Guarded {
        Guarded { picoseconds, guard }
    }

    fn meaning(self) -> (i64, i64) {
        (self.picoseconds, self.guard)
    }
}

#[test]
fn sums(rt: HostRuntime) {
    let cases = [
        ((1, 2), (3, -4), Some((4, -2))),
        (
            (1_000_000_000_000, 1_000_000_000_000),
            (0, 0),
            Some((1_000_000_000_000, 1_000_000_000_000)),
        ),
        ((1_000_000_000_000, 0), (1, 0), None),
        ((0, 1_000_000_000_000), (0, 1), None),
        ((-1_000_000_000_000, 0), (-1, 0), None),
        ((0, -1_000_000_000_000), (0, -1), None),
        ((i64::MAX, 0), (1, 0), None),
        ((0, i64::MAX), (0, 1), None),
        ((i64::MIN, 0), (-1, 0), None),
        ((0, i64::MIN), (0, -1), None),
        ((i64::MIN, i64::MAX), (i64::MAX, i64::MIN), Some((-1, -1))),
    ];
    check_sums::<Guarded>(&rt, &cases);
}

#[test]
fn comparisons(rt: HostRuntime) {
    let cases = [
        ((1, 9), (2, 0), Ordering::Less),
        ((2, 0), (1, 9), Ordering::Greater),
        ((5, -1), (5, 0), Ordering::Less),
        ((5, 1), (5, 0), Ordering::Greater),
        ((5, -1), (5, -1), Ordering::Equal),
        ((4, 0), (5, -1), Ordering::Less),
        ((i64::MIN, i64::MAX), (i64::MAX, i64::MIN), Ordering::Less),
        ((0, i64::MAX), (0, i64::MIN), Ordering::Greater),
    ];
    check_comparisons::<Guarded>(&rt, &cases);
}

#[test]
fn reads(rt: HostRuntime) {
    let cases = [
        ("           5          -1", Some((5, -1))),
        (
            "-99999999999 99999999999",
            Some((-99_999_999_999, 99_999_999_999)),
        ),
        (
            "999999999999100000000000",
            Some((999_999_999_999, 100_000_000_000)),
        ),
        ("           5            ", None),
        ("                      -1", None),
        ("                        ", None),
        ("          -0          -1", None),
        ("           5          -0", None),
        ("           5         -1 ", None),
        // Other widths than twenty-four.
        ("", None),
        ("           5", None),
        ("           5         -1", None),
        ("           5           -1", None),
        ("           5          -1           0", None),
    ];
    check_reads::<Guarded>(&rt, &cases);
}

#[test]
fn writes(rt: HostRuntime) -> Result<(), Fail> {
    let cases = [
        ((5, -1), "           5          -1"),
        (
            (-99_999_999_999, 99_999_999_999),
            "-99999999999 99999999999",
        ),
    ];
    check_writes::<Guarded>(&rt, rt.alloc(), Ok(()), &cases)
}

#[test]
fn refuses_large_numbers(rt: HostRuntime) -> Result<(), Fail> {
    let cases = [
        ((100_000_000_000, 0), "xxxxxxxxxxxxxxxxxxxxxxxx"),
        ((0, 100_000_000_000), "xxxxxxxxxxxxxxxxxxxxxxxx"),
        ((0, -100_000_000_000), "xxxxxxxxxxxxxxxxxxxxxxxx"),
        ((i64::MIN, i64::MAX), "xxxxxxxxxxxxxxxxxxxxxxxx"),
    ];
    check_writes::<Guarded>(&rt, rt.alloc(), Err(Unwritten::TooLarge), &cases)
}

#[test]
fn refuses_other_widths(rt: HostRuntime) -> Result<(), Fail> {
    let cases = [
        ((0, 0), ""),
        ((0, 0), "xxxxxxxxxxxx"),
        ((0, 0), "xxxxxxxxxxxxxxxxxxxxxxx"),
        ((0, 0), "xxxxxxxxxxxxxxxxxxxxxxxxx"),
        ((0, i64::MAX), "xxxxxxxxxxxx"),
    ];
    check_writes::<Guarded>(&rt, rt.alloc(), Err(Unwritten::WrongWidth), &cases)
}
