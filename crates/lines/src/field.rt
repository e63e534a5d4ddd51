// The fields of a line as values: a pin or a count, and an end, which may be absent.
ghost use Rattle.std.specs.Prelude.{◌≡◌, replicate, Decides};
ghost use Rattle.lines.specs.Fields.{ReadsPin, ReadsEnd, OneEnd};

use crate::cause::TextCause;
use kinds::time::{FIELD, Written};

// How many columns a pin has, and each number of an N line.
pub const PIN: usize = 4;

// The number of a pin, or of a count on an N line.
#[tactic(auto, using(crate::proofs::Fields::reads_pin))]
pub fn pin(columns: &[u8]) -> Result<i64, TextCause>
    ensures value { ReadsPin columns.now result }
{
    if columns.len() != PIN {
        return Err(TextCause::Field);
    }
    columns::read(columns).or(Err(TextCause::Field))
}

fn is_blank(columns: &[u8], width: usize) -> bool
    ensures { Decides result (columns.now ≡ replicate width 32) }
{
    columns.len() == width && columns.iter().all(|byte| *byte == b' ')
}

fn read_end<T: Written>(columns: &[u8]) -> Result<Option<T>, TextCause>
    ensures { ReadsEnd T.Time.COUNT T.Time.row columns.now result }
{
    if is_blank(columns, FIELD * T::COUNT) {
        return Ok(None);
    }
    Ok(Some(T::read(columns).ok_or(TextCause::Field)?))
}

// An end: absent where its columns are all spaces.
pub fn end<T: Written>(columns: &[u8]) -> Result<Option<T>, TextCause>
    ensures value { ReadsEnd T.Time.COUNT T.Time.row columns.now result }
    ensures one_end { OneEnd T.Time.COUNT }
{
    read_end(columns)
}
