// What agreed and what differed in a file of vectors, where it differed first, and how that is told.
ghost use Rattle.std.specs.Prelude.{◌≡◌, ◌+◌, ◌%◌, ◌^◌, true, false};

use std::fmt;
use std::num::NonZeroUsize;
use trials::tally::Tally;

#[derive(Clone, Copy, Debug, Default)]
pub struct Tallies {
    calls: Tally,
    // Lines that are no call, which count only where they differ.
    others: Tally,
    line: usize,
    // The line of the first difference.
    first: Option<NonZeroUsize>,
    // Whether the last line was the line of totals: a plain yes or no, with no value that would go with it.
    ended: bool,
}

impl Tallies {
    // One line more. What ended before did not end the file.
    pub fn next_line(&mut self)
        ensures { self.new ≡ record { calls = self.old.calls; others = self.old.others; line = (self.old.line + 1) % 2 ^ 64; first = self.old.first; ended = false } }
    {
        self.line = self.line.wrapping_add(1);
        self.ended = false;
    }

    // Keeps the line, if it is the first that differs.
    fn note(&mut self, same: bool)
        ensures kept { same ≡ true → self.new ≡ self.old }
        ensures first_alone { self.new ≡ record { calls = self.old.calls; others = self.old.others; line = self.old.line; first = self.new.first; ended = self.old.ended } }
    {
        if !same {
            self.first = self.first.or(NonZeroUsize::new(self.line));
        }
    }

    // A call that was made and compared.
    pub fn call(&mut self, same: bool)
        ensures agreed { same ≡ true → self.new.calls.agreed ≡ (self.old.calls.agreed + 1) % 2 ^ 64 }
        ensures differed { same ≡ false → self.new.calls.differed ≡ (self.old.calls.differed + 1) % 2 ^ 64 }
        ensures calls_alone { self.new ≡ record { calls = self.new.calls; others = self.old.others; line = self.old.line; first = self.new.first; ended = self.old.ended } }
    {
        self.calls.note(same);
        self.note(same);
    }

    // A line that is no call.
    pub fn other(&mut self, same: bool)
        ensures kept { same ≡ true → self.new ≡ self.old }
        ensures differed { same ≡ false → self.new.others.differed ≡ (self.old.others.differed + 1) % 2 ^ 64 }
        ensures others_alone { self.new ≡ record { calls = self.old.calls; others = self.new.others; line = self.old.line; first = self.new.first; ended = self.old.ended } }
    {
        if !same {
            self.others.note(false);
        }
        self.note(same);
    }

    // The line of totals, with which the file ends if nothing follows it.
    pub fn totals(&mut self, same: bool)
        ensures differed { same ≡ false → self.new.others.differed ≡ (self.old.others.differed + 1) % 2 ^ 64 }
        ensures ended { self.new ≡ record { calls = self.old.calls; others = self.new.others; line = self.old.line; first = self.new.first; ended = true } }
    {
        self.ended = true;
        self.other(same);
    }

    // The end of the file, which is to be behind its line of totals.
    pub fn end(&mut self)
        ensures ended { self.old.ended ≡ true → self.new ≡ self.old }
        ensures missing { self.old.ended ≡ false → self.new.others.differed ≡ (self.old.others.differed + 1) % 2 ^ 64 }
    {
        self.other(self.ended);
    }

    // How many calls were compared.
    pub fn calls(&self) -> usize
        ensures { result ≡ (self.now.calls.agreed + self.now.calls.differed) % 2 ^ 64 }
    {
        self.calls.agreed.wrapping_add(self.calls.differed)
    }
}

// How the calls of a file came out, and which line differed first.
impl fmt::Display for Tallies {
    fn fmt<W: fmt::Write>(&self, f: &mut fmt::Formatter<W>) -> fmt::Result {
        let mut all = self.calls;
        all += self.others;
        write!(f, "{} calls agreed, {} differed", all.agreed, all.differed)?;
        match self.first {
            Some(line) => write!(f, ", the first in line {line}"),
            None => Ok(()),
        }
    }
}
