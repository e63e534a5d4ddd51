// Why a text cannot be read as a sheet, by number and in words, and the layer to which each cause belongs.
ghost use Rattle.std.specs.Prelude.{◌≡◌, Some};
ghost use Rattle.lines.specs.Causes.{text_cause_number, layer_number, text_layer, cause_words};

use std::error::Error;
use std::fmt;

#[derive(Clone, Copy, Debug, PartialEq, Eq)]
pub enum TextCause {
    // The text is longer than a sheet may be.
    Length = 30,
    // The last line lacks its newline.
    Newline = 31,
    // The letter is unknown, or the columns are not as laid out.
    Layout = 32,
    // The line is out of turn, or there is no N line.
    Turn = 33,
    // The N line's count of numbers is not the kind's.
    Count = 34,
    // A field is not a number.
    Field = 35,
}

#[derive(Clone, Copy, Debug, PartialEq, Eq)]
pub enum Layer {
    Field = 1,
    Line = 2,
    Sheet = 3,
    // A call on the sheet that was read.
    Call = 4,
}

impl TextCause {
    // One cast, under a name that stands: `From` would be no plainer.
    pub fn number(self) -> u8
        ensures value { result ≡ text_cause_number self }
    {
        self as u8
    }

    pub fn layer(self) -> Layer
        ensures value { result ≡ text_layer self }
    {
        match self {
            TextCause::Field => Layer::Field,
            TextCause::Layout => Layer::Line,
            TextCause::Length | TextCause::Newline | TextCause::Turn | TextCause::Count =>
                Layer::Sheet,
        }
    }
}

impl fmt::Display for TextCause {
    ghost output = { λ c. Some (cause_words c) };

    fn fmt<W: fmt::Write>(&self, f: &mut fmt::Formatter<W>) -> fmt::Result {
        f.write_str(match self {
            TextCause::Length => "the text has more than 32768 bytes",
            TextCause::Newline => "the last line lacks its newline",
            TextCause::Layout => "unknown letter, or columns not as laid out",
            TextCause::Turn => "line out of turn, or no N line",
            TextCause::Count => "the count of numbers is not the kind's",
            TextCause::Field => "a field is not a number",
        })
    }
}

impl Error for TextCause {}

impl Layer {
    // One cast, as for a cause.
    pub fn number(self) -> u8
        ensures value { result ≡ layer_number self }
    {
        self as u8
    }
}
