// A line of a sheet, taken apart: its number in the text, and its fields, which are parts of the text.
ghost use Rattle.std.specs.Prelude.{◌≡◌};
ghost use Rattle.lines.specs.Lines.{letter, number};

// The letter with which a line begins, in the order in which a sheet has them.
#[derive(Clone, Copy, Debug, PartialEq, Eq, PartialOrd, Ord)]
pub enum Letter {
    N,
    P,
    R,
    C,
}

#[derive(Clone, Copy)]
pub struct RecordFields<'a> {
    pub first: &'a [u8],
    pub second: &'a [u8],
    pub low: &'a [u8],
    pub high: &'a [u8],
}

// Each case holds the line's number beside its parts: the form that docs/DECISIONS.md gives lines.
#[derive(Clone, Copy)]
pub enum Line<'a> {
    // N: how many pins there are, and how many numbers make up a value.
    Pins {
        line: usize,
        pins: &'a [u8],
        count: &'a [u8],
    },
    // P: a pin and its name.
    Name {
        line: usize,
        pin: &'a [u8],
        name: &'a [u8],
    },
    // R
    Constraint {
        line: usize,
        fields: RecordFields<'a>,
    },
    // C
    Commit {
        line: usize,
        fields: RecordFields<'a>,
    },
}

impl Line<'_> {
    // The line's number in the text, counted from 1.
    pub fn number(&self) -> usize
        ensures value { result ≡ number self.now }
    {
        match self {
            Line::Pins { line, .. }
            | Line::Name { line, .. }
            | Line::Constraint { line, .. }
            | Line::Commit { line, .. } => *line,
        }
    }

    pub fn letter(&self) -> Letter
        ensures value { result ≡ letter self.now }
    {
        match self {
            Line::Pins { .. } => Letter::N,
            Line::Name { .. } => Letter::P,
            Line::Constraint { .. } => Letter::R,
            Line::Commit { .. } => Letter::C,
        }
    }
}
