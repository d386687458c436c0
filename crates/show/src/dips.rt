// The parts of a dip: the well's name, the month, the place of a reading.
ghost use Rattle.std.specs.Prelude.{◌≡◌, ◌+◌, ◌%◌, ◌^◌, ◌++◌, Some, codes, decimal};

use dip::Header;
use std::{fmt, str};

// A well's name, as long as it is.
#[derive(Clone, Copy, Debug, PartialEq, Eq)]
pub struct Name(pub [u8; 12]);

impl fmt::Display for Name {
    // A header that stands has a name of 0x21 to 0x7e; of another name what is text up to its first byte that is none.
    fn fmt<W: fmt::Write>(&self, f: &mut fmt::Formatter<W>) -> fmt::Result {
        let end = self.0.iter().position(|b| *b == 0).unwrap_or(12);
        let name = &self.0[..end];
        let text = match str::from_utf8(name) {
            Ok(text) => text,
            Err(error) => str::from_utf8(&name[..error.valid_up_to()]).unwrap_or_default(),
        };
        f.pad(text)
    }
}

// Year and month, as 2025-01.
#[derive(Clone, Copy, Debug, PartialEq, Eq)]
pub struct Date {
    pub year: u16,
    pub month: u8,
}

impl From<Header> for Date {
    ghost from_gives = { λ h d. d ≡ record { year = h.year; month = h.month } };

    fn from(header: Header) -> Date
        ensures { result ≡ record { year = header.year; month = header.month } }
    {
        Date {
            year: header.year,
            month: header.month,
        }
    }
}

impl fmt::Display for Date {
    fn fmt<W: fmt::Write>(&self, f: &mut fmt::Formatter<W>) -> fmt::Result {
        write!(f, "{}-{:02}", self.year, self.month)
    }
}

// A reading by its index among so many: an index counts from 0, a person from 1.
#[derive(Clone, Copy, Debug, PartialEq, Eq)]
pub struct Reading {
    pub index: usize,
    pub count: usize,
}

impl fmt::Display for Reading {
    ghost output = { λ r. Some (codes "reading " ++ (decimal ((r.index + 1) % 2 ^ 64) ++ (codes " of " ++ decimal r.count))) };

    fn fmt<W: fmt::Write>(&self, f: &mut fmt::Formatter<W>) -> fmt::Result {
        write!(
            f,
            "reading {} of {}",
            self.index.wrapping_add(1),
            self.count
        )
    }
}
