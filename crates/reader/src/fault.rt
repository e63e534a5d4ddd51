// A fault of a text: its cause, and the number of the line that shows it; and how a fault is told as a line.
ghost use Rattle.std.specs.Prelude.{Some};
ghost use Rattle.lines.specs.Causes.{layer_number};
ghost use Rattle.reader.specs.Faults.{WritesFault, WritesTextFault, fault_words};

use columns::NoRoom;
use lines::cause::{Layer, TextCause};
use std::error::Error;
use std::fmt;

// How many bytes an E line has.
pub const WIDTH: usize = 15;

// The greatest line number that it can show.
const GREATEST_LINE: usize = 999_999;

#[derive(Clone, Copy, Debug, PartialEq, Eq)]
pub struct Fault {
    pub cause: TextCause,
    pub line: usize,
}

// Writes an E line, without its newline, from its three numbers; where it has no room, the bytes stay.
pub fn write_fault(layer: Layer, cause: u8, line: usize, bytes: &mut [u8]) -> Result<(), NoRoom>
    ensures value { WritesFault (layer_number layer) cause line bytes.old bytes.new result }
{
    if bytes.len() != WIDTH || line > GREATEST_LINE {
        return Err(NoRoom);
    }
    // All three numbers have room now, so none of them is refused.
    bytes[0] = b'E';
    columns::write_at(i64::from(layer.number()), bytes, 1, 4)?;
    columns::write_at(i64::from(cause), bytes, 5, 4)?;
    columns::write_at(line as i64, bytes, 9, 6)?;
    Ok(())
}

impl Fault {
    pub fn write(&self, bytes: &mut [u8]) -> Result<(), NoRoom>
        ensures value { WritesTextFault self.now bytes.old bytes.new result }
    {
        write_fault(self.cause.layer(), self.cause.number(), self.line, bytes)
    }
}

impl fmt::Display for Fault {
    ghost output = { λ fault. Some (fault_words fault) };

    fn fmt<W: fmt::Write>(&self, f: &mut fmt::Formatter<W>) -> fmt::Result {
        write!(f, "line {}: {}", self.line, self.cause)
    }
}

impl Error for Fault {}
