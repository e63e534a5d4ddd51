// What is asked of a line that is laid out: its turn, its numbers, and the kind's count on an N line.
ghost use Rattle.std.specs.Prelude.{◌≡◌, ◌≤◌, pos, Decides};
ghost use Rattle.lines.specs.Lines.{InTurn, IsPin, IsEnd, Numbers, OwnCount, RecordNumbers};
ghost use Rattle.lines.specs.Checks.{Judged, OneAnswer};
ghost use Rattle.lines.specs.Fields.{ShowsPin};

use crate::cause::TextCause;
use crate::field::{end, pin};
use crate::layout::taken_apart;
use crate::line::{Letter, Line, RecordFields};
use kinds::time::{Time, Written};

fn in_turn(last: Option<Letter>, next: Letter) -> bool
    ensures { Decides result (InTurn last next) }
{
    match last {
        None => next == Letter::N,
        Some(last) => next != Letter::N && last <= next,
    }
}

fn is_pin(columns: &[u8]) -> bool
    ensures { Decides result (IsPin columns.now) }
{
    pin(columns).is_ok()
}

fn is_end<T: Written>(columns: &[u8]) -> bool
    ensures { Decides result (IsEnd T.Time.COUNT columns.now) }
{
    end::<T>(columns).is_ok()
}

fn are_record_numbers<T: Written>(fields: &RecordFields) -> bool
    ensures { Decides result (RecordNumbers T.Time.COUNT fields.now) }
{
    is_pin(fields.first)
        && is_pin(fields.second)
        && is_end::<T>(fields.low)
        && is_end::<T>(fields.high)
}

fn are_numbers<T: Written>(line: &Line) -> bool
    ensures { Decides result (Numbers T.Time.COUNT line.now) }
{
    match line {
        Line::Pins { pins, count, .. } => is_pin(pins) && is_pin(count),
        Line::Name { pin, .. } => is_pin(pin),
        Line::Constraint { fields, .. } | Line::Commit { fields, .. } => are_record_numbers::<T>(
            fields,
        ),
    }
}

fn is_count<T: Time>(columns: &[u8]) -> bool
    ensures { Decides result (ShowsPin columns.now (pos T.COUNT)) }
{
    pin(columns) == Ok(T::COUNT as i64)
}

fn has_own_count<T: Time>(line: &Line) -> bool
    ensures { Decides result (OwnCount T.COUNT line.now) }
{
    match line {
        Line::Pins { count, .. } => is_count::<T>(count),
        Line::Name { .. } | Line::Constraint { .. } | Line::Commit { .. } => true,
    }
}

fn judge<T: Written>(bytes: &[u8], line: usize, last: Option<Letter>) -> Result<Line<'_>, TextCause>
    ensures { Judged T.Time.COUNT last line bytes.now result }
{
    let taken = taken_apart::<T>(bytes, line).ok_or(TextCause::Layout)?;
    if !in_turn(last, taken.letter()) {
        return Err(TextCause::Turn);
    }
    if !are_numbers::<T>(&taken) {
        return Err(TextCause::Field);
    }
    if !has_own_count::<T>(&taken) {
        return Err(TextCause::Count);
    }
    Ok(taken)
}

// The line numbered `line` that the bytes are, after one with the letter `last`; or the first cause by which they are none.
pub fn checked_line<T: Written>(
    bytes: &[u8],
    line: usize,
    last: Option<Letter>,
) -> Result<Line<'_>, TextCause>
    ensures judged { Judged T.Time.COUNT last line bytes.now result }
    ensures one_answer { OneAnswer T.Time.COUNT }
{
    judge::<T>(bytes, line, last)
}
