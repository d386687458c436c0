// What is said of a line: one that does not stand, by its number, the word, what is wrong with it and the limit; and one that stands but is
// worth a note. Serves the main job.
ghost use Rattle.std.specs.Prelude.{◌≡◌};

use crate::words::{Number, Well, Wrong};
use dip::Header;
use dip_text::{Field, Trouble};
use line_text::Line;
use show::{Name, Quoted, tell};
use std::fmt;

// An earlier month that a line is held against: its header, and the number of its line.
#[derive(Clone, Copy, Debug, PartialEq, Eq)]
pub struct Earlier {
    pub header: Header,
    pub line: usize,
}

// Why a line does not stand; the last three are not of the year that the first month began, or do not go on with the last one.
#[derive(Clone, Copy, Debug, PartialEq, Eq)]
pub enum WrongLine {
    Indented,
    Thirteenth,
    NoMonth(Trouble),
    OtherBorehole(Earlier),
    OtherYear(Earlier),
    NotAfter(Earlier),
}

impl From<Trouble> for WrongLine {
    ghost use Rattle.wrong.specs.declared.line.WrongLine.TheVariants.{NoMonth};

    ghost from_gives = { λ t w. w ≡ NoMonth t };

    fn from(trouble: Trouble) -> WrongLine
        ensures { result ≡ WrongLine.NoMonth trouble }
    {
        Self::NoMonth(trouble)
    }
}

// What is added where a line that was read as a month, or the month that it is held against, was perhaps meant as a comment.
fn hint(line: Line<'_>, other: Option<Earlier>) -> &'static str {
    let beside = other.is_some_and(|month| month.header.name.starts_with(b"#"));
    if beside || line.text.starts_with(b"#") {
        " (a comment begins with a blank, then #)"
    } else {
        ""
    }
}

// A line, with why it does not stand.
#[derive(Clone, Copy)]
struct Told<'a> {
    line: Line<'a>,
    why: WrongLine,
}

impl<'a> Told<'a> {
    fn number(self, field: Field) -> Number<'a> {
        Number {
            line: self.line.text,
            field,
        }
    }

    // Of two months out of order either may be the one that is no month.
    fn hint(self) -> &'static str {
        let other = match self.why {
            WrongLine::NotAfter(last) => Some(last),
            _ => None,
        };
        hint(self.line, other)
    }
}

impl<'a> fmt::Display for Told<'a> {
    fn fmt<W: fmt::Write>(&self, f: &mut fmt::Formatter<W>) -> fmt::Result {
        let line = self.line.text;
        match self.why {
            WrongLine::Indented => write!(
                f,
                "a blank stands before {}; a month begins with its well, a comment with a blank, then #",
                Quoted(Well(line).name())
            ),
            WrongLine::Thirteenth => write!(
                f,
                "{} comes after twelve months; a year has no more",
                Well(line)
            ),
            WrongLine::NoMonth(trouble) => write!(f, "{}", Wrong { line, trouble }),
            WrongLine::OtherBorehole(first) => write!(
                f,
                "{} is another borehole than {} of line {}; a file is one borehole's year",
                self.number(Field::Borehole),
                first.header.borehole,
                first.line
            ),
            WrongLine::OtherYear(first) => write!(
                f,
                "{} is another year than {} of line {}; a file is one borehole's year",
                self.number(Field::Year),
                first.header.year,
                first.line
            ),
            WrongLine::NotAfter(last) => write!(
                f,
                "{} does not come after month {} of line {}; months rise, and none is given twice",
                self.number(Field::Month),
                last.header.month,
                last.line
            ),
        }
    }
}

pub fn of(errors: &impl Print, line: Line<'_>, why: WrongLine) {
    let told = Told { line, why };
    tell(
        errors,
        format_args!("line {}: {told}{}", line.number, told.hint()),
    );
}

// A line that stands, under another name than the month before it: told, so that a name that was mistyped is seen.
pub fn renamed(errors: &impl Print, line: Line<'_>, last: Earlier) {
    tell(
        errors,
        format_args!(
            "note: line {}: {} is another name than {} of line {}; the borehole number is the same, so it is one series{}",
            line.number,
            Well(line.text),
            Name(last.header.name),
            last.line,
            hint(line, Some(last))
        ),
    );
}
