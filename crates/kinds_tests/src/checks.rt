// What each kind of time is checked for, by tables of its numbers.
use kinds::time::{Unwritten, Written};
use std::alloc::Global;
use std::cmp::Ordering;
use std::fmt::Debug;
use std::process::Abort;
use std::test::Fail;

// A kind, with what its tables are written in.
pub trait Numbered: Written {
    // What makes up a value.
    type Numbers: Copy + Debug;

    // What a value is compared by: those that mean the same pass for one another.
    type Meaning: Copy + PartialEq + Debug;

    fn of(numbers: Self::Numbers) -> Self;

    fn meaning(self) -> Self::Meaning;
}

fn meaning_of<T: Numbered>(value: Option<T>) -> Option<T::Meaning> {
    Some(value?.meaning())
}

pub fn check_sums<T: Numbered>(
    rt: &impl Abort,
    cases: &[(T::Numbers, T::Numbers, Option<T::Meaning>)],
) {
    for &(value, other, sum) in cases {
        let given = T::of(value).sum(T::of(other));
        assert_eq!(rt; meaning_of(given), sum, "{value:?} and {other:?}");
    }
}

pub fn check_opposites<T: Numbered>(rt: &impl Abort, cases: &[(T::Numbers, Option<T::Meaning>)]) {
    for &(value, opposite) in cases {
        let given = T::of(value).opposite();
        assert_eq!(rt; meaning_of(given), opposite, "{value:?}");
    }
}

pub fn check_comparisons<T: Numbered>(
    rt: &impl Abort,
    cases: &[(T::Numbers, T::Numbers, Ordering)],
) {
    for &(value, other, order) in cases {
        assert_eq!(rt;
            T::of(value).compare(T::of(other)),
            order,
            "{value:?} and {other:?}"
        );
    }
}

pub fn check_limits<T: Numbered>(rt: &impl Abort, cases: &[(T::Numbers, u64, bool)]) {
    for &(value, limit, within) in cases {
        assert_eq!(rt; T::of(value).within(limit), within, "{value:?} and {limit}");
    }
}

pub fn check_reads<T: Numbered>(rt: &impl Abort, cases: &[(&str, Option<T::Meaning>)]) {
    for &(columns, value) in cases {
        let given = T::read(columns.as_bytes());
        assert_eq!(rt; meaning_of(given), value, "{columns:?}");
    }
}

// The columns hold the letter x before, and are as many as they are after.
pub fn check_writes<T: Numbered>(
    rt: &impl Abort,
    heap: Global,
    answer: Result<(), Unwritten>,
    cases: &[(T::Numbers, &str)],
) -> Result<(), Fail> {
    for &(value, after) in cases {
        let mut columns = vec![in heap; b'x'; after.len()]?;
        assert_eq!(rt;
            T::of(value).write(&mut columns),
            answer,
            "{value:?} and {after:?}"
        );
        assert_eq!(rt; columns.as_slice(), after.as_bytes(), "{value:?}");
    }
    Ok(())
}
