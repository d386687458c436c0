// The names that one borehole goes by in a year: the number stays with the hole, the name on its cap may change. Serves the main job.
ghost use Rattle.std.specs.Prelude.{◌≤◌};

use crate::months::Year;
use arrayvec::ArrayVec;
use dip::Header;
use show::{Date, Name};
use std::fmt;

// How many there may be, in words.
const IN_WORDS: [&str; 13] = [
    "no", "one", "two", "three", "four", "five", "six", "seven", "eight", "nine", "ten", "eleven",
    "twelve",
];

// How many there are: each is kept once. There are no more than there are months.
fn count(year: &Year) -> usize
    ensures { result ≤ 12 }
{
    let mut names = ArrayVec::<[u8; 12], 12>::new();
    for month in year.as_slice() {
        let name = month.in_packet().name;
        if !names.contains(&name) {
            names.push(name);
        }
    }
    names.len()
}

// A name, and the month that it begins with.
#[derive(Clone, Copy)]
struct Since(Header);

impl fmt::Display for Since {
    fn fmt<W: fmt::Write>(&self, f: &mut fmt::Formatter<W>) -> fmt::Result {
        write!(f, "{} from {}", Name(self.0.name), Date::from(self.0))
    }
}

// Where the months of a year go by more than one name, a line that says so, with the first name and every change; nothing where they do not. The names are those in the
// packets, as in the table's rows.
#[derive(Clone, Copy)]
pub struct Names<'a>(pub &'a Year);

impl fmt::Display for Names<'_> {
    fn fmt<W: fmt::Write>(&self, f: &mut fmt::Formatter<W>) -> fmt::Result {
        let year = self.0;
        let names = count(year);
        match year.first() {
            Some(first) if 1 < names => {
                let words = IN_WORDS[names];
                let header = first.in_packet();
                let borehole = header.borehole;
                let since = Since(header);
                write!(f, "\nOne borehole, {words} names: {borehole} is {since}")?;
                for (before, this) in year.iter().zip(year.iter().skip(1)) {
                    let header = this.in_packet();
                    if before.in_packet().name != header.name {
                        write!(f, ", {}", Since(header))?;
                    }
                }
                f.write_str(".\n")
            }
            _ => Ok(()),
        }
    }
}
