// The lines of the groups of cases: the name of each, and what each of its cases answered.
use dip::BadReadings;
use std::{fmt, io};
use table::Refusal;
use trials::tally::Tally;

// What a call on readings answers in the client's numbers, and what is expected of it: the number, and the index beside it. No `Refusal`: what
// the library's `number` makes of one is tried too.
#[derive(Clone, Copy, Debug, PartialEq, Eq)]
pub struct Told(pub u8, pub usize);

impl From<Result<(), BadReadings>> for Told {
    fn from(answer: Result<(), BadReadings>) -> Told {
        match answer {
            Ok(()) => Told(0, 0),
            Err(bad) => Told(Refusal::from(bad).number(), bad.index()),
        }
    }
}

// With 16 the index is printed too, as 16:4.
impl fmt::Display for Told {
    fn fmt<W: fmt::Write>(&self, f: &mut fmt::Formatter<W>) -> fmt::Result {
        match self {
            Told(16, index) => write!(f, "16:{index}"),
            Told(number, _) => write!(f, "{number}"),
        }
    }
}

// What a case answered: an `Err` where that, or anything that the call left, was not right.
pub fn judged<T: Drop>(answer: T, right: bool) -> Result<T, T> {
    if right { Ok(answer) } else { Err(answer) }
}

// Where the cases are printed, and how all of them so far came out.
#[derive_where(Clone, Copy)]
pub struct Cases<'a, P> {
    rt: &'a P,
    pub tally: Tally,
}

impl<'a, P: Print> Cases<'a, P> {
    pub fn new(rt: &'a P) -> Self {
        Cases {
            rt,
            tally: Tally::default(),
        }
    }

    // The name of a group, at the head of its line.
    pub fn begin(&self, name: &str) -> io::Result<()> {
        print!(self.rt; "{name}:")
    }

    // One case, as it was judged.
    pub fn case<T: fmt::Display + Drop>(&mut self, outcome: Result<T, T>) -> io::Result<()> {
        self.tally.note(outcome.is_ok());
        match outcome {
            Ok(answer) => print!(self.rt; " {answer}"),
            Err(answer) => print!(self.rt; " {answer}(differs)"),
        }
    }

    // The end of a group's line.
    pub fn end(&self) -> io::Result<()> {
        println!(self.rt; "")
    }
}
