// One whole number, for every kind alike.
ghost use Rattle.std.specs.Prelude.{◌≤◌, ◌+ℤ◌, neg_ℤ, Decides, unsigned_abs};
ghost use Rattle.kinds.specs.Numbers.{ExactNumber};

use crate::time::MOST;

pub(crate) fn sum(number: i64, other: i64) -> Option<i64>
    ensures value { ExactNumber (number +ℤ other) result }
{
    bounded(number.checked_add(other)?)
}

pub(crate) fn opposite(number: i64) -> Option<i64>
    ensures value { ExactNumber (neg_ℤ number) result }
{
    bounded(number.checked_neg()?)
}

fn bounded(exact: i64) -> Option<i64>
    ensures { ExactNumber exact result }
{
    (-MOST..=MOST).contains(&exact).then_some(exact)
}

pub(crate) fn within(number: i64, limit: u64) -> bool
    ensures value { Decides result (unsigned_abs number ≤ limit) }
{
    number.unsigned_abs() <= limit
}
