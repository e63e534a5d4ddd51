// The columns of each line: a line's bytes taken apart, or that they are not as laid out.
ghost use Rattle.std.specs.Prelude.{◌≡◌, ◌≤◌};
ghost use Rattle.lines.specs.Lines.{Apart, LettersApart, RecordApart};

use crate::field::PIN;
use crate::line::{Line, RecordFields};
use kinds::time::{FIELD, Time};

// The fields of an R or C line, from what follows its letter.
fn record_fields<T: Time>(rest: &[u8]) -> Option<RecordFields<'_>>
    ensures { RecordApart T.COUNT rest.now result }
{
    // The line ends with its last field, so the width is tested whole and no split can fail.
    let end = FIELD * T::COUNT;
    if rest.len() != 2 * PIN + 2 * end {
        return None;
    }
    let (first, after) = rest.split_at(PIN);
    let (second, ends) = after.split_at(PIN);
    let (low, high) = ends.split_at(end);
    Some(RecordFields {
        first,
        second,
        low,
        high,
    })
}

// An N line, from what follows its letter.
fn pins_line(rest: &[u8], line: usize) -> Option<Line<'_>>
    ensures { LettersApart 78 line rest.now result }
{
    // Whole, as for a record.
    if rest.len() != 2 * PIN {
        return None;
    }
    let (pins, count) = rest.split_at(PIN);
    Some(Line::Pins { line, pins, count })
}

// A P line, from what follows its letter: a space parts the pin from its name.
fn name_line(rest: &[u8], line: usize) -> Option<Line<'_>>
    ensures { LettersApart 80 line rest.now result }
{
    let (pin, after) = rest.split_at_checked(PIN)?;
    match after {
        [b' ', name @ ..] => Some(Line::Name { line, pin, name }),
        _ => None,
    }
}

pub(crate) fn taken_apart<T: Time>(bytes: &[u8], line: usize) -> Option<Line<'_>>
    ensures { Apart T.COUNT line bytes.now result }
{
    match bytes {
        [b'N', rest @ ..] => pins_line(rest, line),
        [b'P', rest @ ..] => name_line(rest, line),
        [b'R', rest @ ..] => Some(Line::Constraint {
            line,
            fields: record_fields::<T>(rest)?,
        }),
        [b'C', rest @ ..] => Some(Line::Commit {
            line,
            fields: record_fields::<T>(rest)?,
        }),
        _ => None,
    }
}
