// The kind with an offset, as pairs of number and offset. What a pair means is their sum.
use crate::checks::{Numbered, check_comparisons, check_sums};
use offsets::Offset;
use std::cmp::Ordering;

impl Numbered for Offset {
    type Numbers = (i64, i64);

    type Meaning = i128;

    fn of((number, offset): (i64, i64)) -> Offset {
        Offset { number, offset }
    }

    // Worked out here anew, as an expected value.
    fn meaning(self) -> i128 {
        i128::from(self.number) + i128::from(self.offset)
    }
}

#[test]
fn sums(rt: HostRuntime) {
    let cases = [
        ((1, 2), (3, -10), Some(-4)),
        ((1_000_000_000_000, 0), (0, 0), Some(1_000_000_000_000)),
        ((0, 1_000_000_000_000), (5, -5), Some(1_000_000_000_000)),
        ((1_000_000_000_001, -1), (0, 0), Some(1_000_000_000_000)),
        ((1_000_000_000_000, 1), (0, 0), None),
        ((-1_000_000_000_000, -1), (0, 0), None),
        ((1_000_000_000_000, 0), (0, 1), None),
        ((i64::MAX, i64::MIN), (0, 0), Some(-1)),
        ((i64::MAX, i64::MAX), (i64::MIN, i64::MIN), Some(-2)),
        ((i64::MAX, i64::MAX), (i64::MAX, i64::MAX), None),
        ((i64::MIN, i64::MIN), (i64::MIN, i64::MIN), None),
    ];
    check_sums::<Offset>(&rt, &cases);
}

#[test]
fn comparisons(rt: HostRuntime) {
    let cases = [
        // Other pairs of one meaning.
        ((5, 0), (0, 5), Ordering::Equal),
        ((5, 0), (7, -2), Ordering::Equal),
        ((-1, 0), (i64::MAX, i64::MIN), Ordering::Equal),
        ((i64::MAX, 1), (1, i64::MAX), Ordering::Equal),
        ((5, 0), (0, 6), Ordering::Less),
        ((9, -9), (1, -2), Ordering::Greater),
        (
            (i64::MAX, i64::MAX),
            (i64::MAX, i64::MAX - 1),
            Ordering::Greater,
        ),
        (
            (i64::MIN, i64::MIN),
            (i64::MIN, i64::MIN + 1),
            Ordering::Less,
        ),
        ((i64::MIN, i64::MIN), (i64::MAX, i64::MAX), Ordering::Less),
    ];
    check_comparisons::<Offset>(&rt, &cases);
}
