// What is said of a month that was opened and cannot be read: whose it is, and which reading is bad. Serves the main job.
use dip::Header;
use show::{Date, Name, Reading};
use std::fmt;
use table::Refusal;

// Why it cannot be read.
#[derive(Clone, Copy, Debug, PartialEq, Eq)]
pub enum BadMonth {
    // The reading at an index is out of range.
    Reading {
        header: Header,
        index: usize,
        level: i32,
    },
    // Any other refusal, which a month that was read from a line cannot have.
    Refused(Refusal),
}

impl fmt::Display for BadMonth {
    // Of a refusal the number alone, since a header that is refused names no month.
    fn fmt<W: fmt::Write>(&self, f: &mut fmt::Formatter<W>) -> fmt::Result {
        match *self {
            BadMonth::Reading {
                header,
                index,
                level,
            } => write!(
                f,
                "{} {}: opened, but it cannot be read: {}, {level}, is out of range: -2000000 to 2000000, or missing",
                Name(header.name),
                Date::from(header),
                Reading {
                    index,
                    count: usize::from(header.count),
                }
            ),
            BadMonth::Refused(why) => write!(
                f,
                "a month was opened, but it cannot be read: refused with {}",
                why.number()
            ),
        }
    }
}
