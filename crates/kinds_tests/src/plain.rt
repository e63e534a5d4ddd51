// Plain picoseconds.
use crate::checks::{
    Numbered, check_comparisons, check_limits, check_opposites, check_reads, check_sums,
    check_writes,
};
use kinds::plain::Plain;
use kinds::time::Unwritten;
use std::cmp::Ordering;
use std::test::Fail;

impl Numbered for Plain {
    type Numbers = i64;

    type Meaning = i64;

    fn of(picoseconds: i64) -> Plain {
        Plain { picoseconds }
    }

    fn meaning(self) -> i64 {
        self.picoseconds
    }
}

#[test]
fn sums(rt: HostRuntime) {
    let cases = [
        (0, 0, Some(0)),
        (3, -4, Some(-1)),
        (1_000_000_000_000, 0, Some(1_000_000_000_000)),
        (999_999_999_999, 1, Some(1_000_000_000_000)),
        (1_000_000_000_000, 1, None),
        (1_000_000_000_001, 0, None),
        (1_000_000_000_001, -1, Some(1_000_000_000_000)),
        (-1_000_000_000_000, 0, Some(-1_000_000_000_000)),
        (-1_000_000_000_000, -1, None),
        (i64::MAX, 0, None),
        (i64::MAX, 1, None),
        (i64::MAX, i64::MAX, None),
        (i64::MIN, -1, None),
        (i64::MIN, i64::MIN, None),
        (i64::MIN, i64::MAX, Some(-1)),
        (
            i64::MAX,
            -9_223_371_036_854_775_807,
            Some(1_000_000_000_000),
        ),
        (i64::MAX, -9_223_371_036_854_775_806, None),
    ];
    check_sums::<Plain>(&rt, &cases);
}

#[test]
fn opposites(rt: HostRuntime) {
    let cases = [
        (0, Some(0)),
        (5, Some(-5)),
        (-5, Some(5)),
        (1_000_000_000_000, Some(-1_000_000_000_000)),
        (-1_000_000_000_000, Some(1_000_000_000_000)),
        (1_000_000_000_001, None),
        (-1_000_000_000_001, None),
        (i64::MAX, None),
        (i64::MIN, None),
    ];
    check_opposites::<Plain>(&rt, &cases);
}

#[test]
fn comparisons(rt: HostRuntime) {
    let cases = [
        (3, 4, Ordering::Less),
        (4, 4, Ordering::Equal),
        (5, 4, Ordering::Greater),
        (-5, -4, Ordering::Less),
        (-1, 0, Ordering::Less),
        (i64::MIN, i64::MAX, Ordering::Less),
        (i64::MAX, i64::MIN, Ordering::Greater),
        (i64::MIN, i64::MIN, Ordering::Equal),
    ];
    check_comparisons::<Plain>(&rt, &cases);
}

#[test]
fn limits(rt: HostRuntime) {
    let cases = [
        (0, 0, true),
        (1, 0, false),
        (5, 5, true),
        (5, 4, false),
        (-5, 5, true),
        (-5, 4, false),
        (i64::MAX, 9_223_372_036_854_775_807, true),
        (i64::MAX, 9_223_372_036_854_775_806, false),
        (i64::MIN, 9_223_372_036_854_775_808, true),
        (i64::MIN, 9_223_372_036_854_775_807, false),
        (i64::MIN, u64::MAX, true),
    ];
    check_limits::<Plain>(&rt, &cases);
}

#[test]
fn reads(rt: HostRuntime) {
    let cases = [
        ("           0", Some(0)),
        ("          -7", Some(-7)),
        (" 99999999999", Some(99_999_999_999)),
        ("-99999999999", Some(-99_999_999_999)),
        ("100000000000", Some(100_000_000_000)),
        ("999999999999", Some(999_999_999_999)),
        ("            ", None),
        ("          -0", None),
        ("000000000001", None),
        ("          1 ", None),
        // Other widths than twelve.
        ("", None),
        ("0", None),
        ("          0", None),
        ("            0", None),
        ("           0           0", None),
    ];
    check_reads::<Plain>(&rt, &cases);
}

#[test]
fn writes(rt: HostRuntime) -> Result<(), Fail> {
    let cases = [
        (0, "           0"),
        (-7, "          -7"),
        (99_999_999_999, " 99999999999"),
        (-99_999_999_999, "-99999999999"),
    ];
    check_writes::<Plain>(&rt, rt.alloc(), Ok(()), &cases)
}

#[test]
fn refuses_large_numbers(rt: HostRuntime) -> Result<(), Fail> {
    let cases = [
        (100_000_000_000, "xxxxxxxxxxxx"),
        (-100_000_000_000, "xxxxxxxxxxxx"),
        (i64::MAX, "xxxxxxxxxxxx"),
        (i64::MIN, "xxxxxxxxxxxx"),
    ];
    check_writes::<Plain>(&rt, rt.alloc(), Err(Unwritten::TooLarge), &cases)
}

#[test]
fn refuses_other_widths(rt: HostRuntime) -> Result<(), Fail> {
    let cases = [
        (0, ""),
        (0, "xxxxxxxxxxx"),
        (0, "xxxxxxxxxxxxx"),
        (0, "xxxxxxxxxxxxxxxxxxxxxxxx"),
        (i64::MAX, "xxxxxxxxxxx"),
    ];
    check_writes::<Plain>(&rt, rt.alloc(), Err(Unwritten::WrongWidth), &cases)
}
