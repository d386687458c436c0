// A line in words, as a format takes it: a field as it stands there, with what it is, and what is wrong with the line. Serves what is said of a line.
use dip_text::{Field, Trouble};
use line_text::{Words, up_to};
use show::{Quoted, Reading};
use std::fmt;

// The first word of a line, where a well stands. A type of its own: how bytes are told is each type's own `Display`.
#[derive(Clone, Copy, Debug)]
pub struct Well<'a>(pub &'a [u8]);

impl<'a> Well<'a> {
    pub fn name(self) -> &'a [u8] {
        Words::of(self.0).next().unwrap_or_default()
    }
}

impl<'a> fmt::Display for Well<'a> {
    fn fmt<W: fmt::Write>(&self, f: &mut fmt::Formatter<W>) -> fmt::Result {
        write!(f, "well {}", Quoted(self.name()))
    }
}

// A word that is a number, or should be one; a reading among those of the line.
#[derive(Clone, Copy, Debug)]
pub struct Number<'a> {
    pub line: &'a [u8],
    pub field: Field,
}

impl<'a> Number<'a> {
    // Its place among the words of the line, counted from 0.
    fn place(self) -> usize {
        match self.field {
            Field::Borehole => 1,
            Field::Year => 2,
            Field::Month => 3,
            Field::Datum => 4,
            Field::Reading { index } => index.saturating_add(5),
        }
    }

    fn word(self) -> &'a [u8] {
        Words::of(self.line).nth(self.place()).unwrap_or_default()
    }
}

impl<'a> fmt::Display for Number<'a> {
    fn fmt<W: fmt::Write>(&self, f: &mut fmt::Formatter<W>) -> fmt::Result {
        let word = Quoted(self.word());
        match self.field {
            Field::Borehole => write!(f, "borehole {word}"),
            Field::Year => write!(f, "year {word}"),
            Field::Month => write!(f, "month {word}"),
            Field::Datum => write!(f, "datum {word}"),
            Field::Reading { index } => {
                let count = Words::of(self.line).skip(5).count();
                write!(f, "{}, {word},", Reading { index, count })
            }
        }
    }
}

fn limits(field: Field) -> &'static str {
    match field {
        Field::Borehole => "1 to 4294967295",
        Field::Year => "1900 to 2199",
        Field::Month => "1 to 12",
        Field::Datum => "-500000 to 9000000",
        Field::Reading { .. } => "-2000000 to 2000000, or - for a missing one",
    }
}

// What is wrong with a line.
#[derive(Clone, Copy, Debug)]
pub struct Wrong<'a> {
    pub line: &'a [u8],
    pub trouble: Trouble,
}

impl<'a> fmt::Display for Wrong<'a> {
    fn fmt<W: fmt::Write>(&self, f: &mut fmt::Formatter<W>) -> fmt::Result {
        let line = self.line;
        let well = Well(line);
        match self.trouble {
            Trouble::TooFewWords { found } => write!(
                f,
                "{found} of the five words that a month begins with: well, borehole, year, month, datum"
            ),
            Trouble::NameLength => write!(
                f,
                "{well} has {} bytes; a name has 1 to 12",
                well.name().len()
            ),
            Trouble::NameSpace { words } => write!(
                f,
                "well {} seems to have a space in it; a name is one word",
                Quoted(up_to(line, words))
            ),
            Trouble::BadName => write!(
                f,
                "{well} has a byte that no name has; 0x21 to 0x7e, blanks not among them"
            ),
            Trouble::NoNumber { field } => write!(
                f,
                "{} is not a whole number: {}",
                Number { line, field },
                limits(field)
            ),
            Trouble::OutOfRange { field } => write!(
                f,
                "{} is out of range: {}",
                Number { line, field },
                limits(field)
            ),
            Trouble::TooManyReadings { found } => write!(
                f,
                "{found} readings; a month has up to 31"
            ),
        }
    }
}
