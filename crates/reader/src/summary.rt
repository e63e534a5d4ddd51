// What a sheet holds, in numbers.
ghost use Rattle.std.specs.Prelude.{◌≡◌, ℤ, Some};
ghost use Rattle.lines.specs.Fields.{ShowsPin};
ghost use Rattle.reader.specs.Summaries.{Few, Noted, Surveyed, summary_text};

use crate::fault::Fault;
use crate::reader::Reader;
use kinds::time::Written;
use lines::field::pin;
use lines::line::Line;
use std::fmt;

#[derive(Clone, Copy, Debug, Default, PartialEq, Eq)]
pub struct Summary {
    // The number on the N line.
    pub pins: i64,
    // How many P, R and C lines there are.
    pub names: usize,
    pub constraints: usize,
    pub commits: usize,
}

impl fmt::Display for Summary {
    ghost output = { λ s. Some (summary_text s) };

    fn fmt<W: fmt::Write>(&self, f: &mut fmt::Formatter<W>) -> fmt::Result {
        write!(
            f,
            "pins {}\nnames {}\nconstraints {}\ncommits {}",
            self.pins, self.names, self.constraints, self.commits
        )
    }
}

fn number_of(columns: &[u8]) -> i64
    ensures { (z : ℤ) → ShowsPin columns.now z → result ≡ z }
{
    pin(columns).unwrap_or(0)
}

impl Summary {
    fn note(&mut self, line: &Line)
        requires { Few self.old }
        ensures { Noted line.now self.old self.new }
    {
        match line {
            Line::Pins { pins, .. } => self.pins = number_of(pins),
            Line::Name { .. } => self.names += 1,
            Line::Constraint { .. } => self.constraints += 1,
            Line::Commit { .. } => self.commits += 1,
        }
    }
}

// The counts of a sheet's lines, or its first fault.
pub fn survey<T: Written>(text: &[u8]) -> Result<Summary, Fault>
    ensures sheet { Surveyed T.Time.COUNT text.now result }
{
    let mut reader = Reader::<T>::new(text);
    let mut summary = Summary::default();
    while let Some(line) = reader.next_line()? {
        summary.note(&line);
    }
    Ok(summary)
}
