// The library's answers, with their numbers in the table and the table's words.
use std::fmt;
use table::{Done, Refusal};

// What start, wrap or unwrap answered, as `8, tag differs` or `0, done`.
#[derive(Clone, Copy, Debug, PartialEq, Eq)]
pub struct Answered(pub Result<Done, Refusal>);

impl fmt::Display for Answered {
    fn fmt<W: fmt::Write>(&self, f: &mut fmt::Formatter<W>) -> fmt::Result {
        match self.0 {
            Ok(_) => f.write_str("0, done"),
            Err(why) => write!(f, "{}, {why}", why.number()),
        }
    }
}

// A refusal, as `refused with 8, tag differs`.
#[derive(Clone, Copy, Debug, PartialEq, Eq)]
pub struct Refused(pub Refusal);

impl fmt::Display for Refused {
    fn fmt<W: fmt::Write>(&self, f: &mut fmt::Formatter<W>) -> fmt::Result {
        write!(f, "refused with {}, {}", self.0.number(), self.0)
    }
}
