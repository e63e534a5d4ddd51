// How a reader begins, and hands out one line after the other.
ghost use Rattle.std.specs.Prelude.{◌≡◌};
ghost use Rattle.reader.specs.Readings.{Before, Begun, Next, TellsTheSheet};
ghost use Rattle.reader.specs.Sheets.{OneTelling};
ghost use Rattle.reader.specs.Texts.{FirstNewline, newlines, Unreadable};

use super::Reader;
use crate::fault::Fault;
use kinds::time::Written;
use lines::cause::TextCause;
use lines::checks::checked_line;
use lines::line::Line;
use std::marker::PhantomData;

// The most bytes that a sheet may have.
pub const LIMIT: usize = 32_768;

fn newlines(text: &[u8]) -> usize
    ensures { result ≡ newlines text.now }
{
    text.iter().filter(|byte| **byte == b'\n').count()
}

// A text is read line by line where it has no fault as a whole.
fn whole_text(text: &[u8]) -> Result<(), Fault>
    ensures { Unreadable text.now result }
{
    if text.len() > LIMIT {
        return Err(Fault {
            cause: TextCause::Length,
            line: 0,
        });
    }
    match text {
        [] => Err(Fault {
            cause: TextCause::Turn,
            line: 1,
        }),
        [.., b'\n'] => Ok(()),
        _ => Err(Fault {
            cause: TextCause::Newline,
            line: newlines(text) + 1,
        }),
    }
}

// How long the first line is, without its newline; absent where no line ends.
fn line_length(text: &[u8]) -> Option<usize>
    ensures { FirstNewline text.now result }
{
    text.iter().position(|byte| *byte == b'\n')
}

impl<'a, T: Written> Reader<'a, T> {
    #[tactic(auto, using(crate::proofs::OneTelling::one_telling, crate::proofs::Tellings::tells_the_sheet))]
    pub fn new(text: &'a [u8]) -> Reader<'a, T>
        ensures begun { Begun text.now result }
        ensures tells_the_sheet { TellsTheSheet text.now result }
        ensures one_telling { OneTelling T.Time.COUNT text.now }
    {
        Reader {
            text,
            place: 0,
            line: 1,
            last: None,
            kind: PhantomData,
        }
    }

    // A fault of the whole text is found before the first line is handed out, and there is none after that.
    fn before_lines(&self) -> Result<(), Fault>
        ensures { Before self.now result }
    {
        if self.place > 0 {
            return Ok(());
        }
        whole_text(self.text)
    }

    // The next line, or none after the last. At a fault the reader stays where it is.
    pub fn next_line(&mut self) -> Result<Option<Line<'a>>, Fault>
        ensures next { Next T.Time.COUNT self.old self.new result }
    {
        self.before_lines()?;
        let text = self.text;
        let rest = &text[self.place..];
        let Some(length) = line_length(rest) else {
            return Ok(None);
        };
        let line = self.line;
        // By cases: through `map_err` the proof did not learn what the closure made of the cause.
        match checked_line::<T>(&rest[..length], line, self.last) {
            Ok(taken) => {
                self.last = Some(taken.letter());
                self.place += length + 1;
                self.line += 1;
                Ok(Some(taken))
            }
            Err(cause) => Err(Fault { cause, line }),
        }
    }
}
