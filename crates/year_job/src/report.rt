// Where the job writes, and how all that it did so far came out: the table that a person reads, its head, a row a month, its foot. Serves the main job.
use dip::Header;
use show::{Date, Hex, Name};
use std::{fmt, io};
use year_text::{Found, Names, Year};

// How the year came out, from the good line to what is told before all else: readings that came out other than they were sealed are likely out of
// range too, so that their months could not be read.
#[derive(Clone, Copy, Debug, PartialEq, Eq, PartialOrd, Ord)]
pub enum Verdict {
    Same,
    NotRefused,
    Unread,
    Altered,
}

impl fmt::Display for Verdict {
    fn fmt<W: fmt::Write>(&self, f: &mut fmt::Formatter<W>) -> fmt::Result {
        f.write_str(match self {
            Verdict::Same => "Every reading came out as it was sealed.",
            Verdict::NotRefused => "A tampered month was not refused.",
            Verdict::Unread => "Not every month could be read.",
            Verdict::Altered => "Not every reading came out as it was sealed.",
        })
    }
}

// Where the job writes, how all months so far came out, and whether all of the table was written: a flag, since that is told beside any verdict,
// and the error of the part that failed is not wanted.
#[derive_where(Clone, Copy)]
pub struct Report<'a, O, E> {
    pub output: &'a O,
    pub errors: &'a E,
    verdict: Verdict,
    written: bool,
}

// How many of the numbers are missing ones.
fn missing(levels: &[i32]) -> usize {
    levels
        .iter()
        .filter(|level| **level == dip::MISSING)
        .count()
}

impl<'a, O: Print, E: Print> Report<'a, O, E> {
    pub fn new(output: &'a O, errors: &'a E) -> Self {
        Report {
            output,
            errors,
            verdict: Verdict::Same,
            written: true,
        }
    }

    // What one month more, or one try more, came to.
    pub fn came(&mut self, out: Verdict) {
        self.verdict = self.verdict.max(out);
    }

    // The outcome of printing a part of the table.
    pub fn note(&mut self, printed: io::Result<()>) {
        self.written &= printed.is_ok();
    }

    pub fn head(&mut self, name: &str, start_tag: &[u8]) {
        let tag = Hex(start_tag);
        let head = print!(self.output;
            "Sealed with {name}, opened on a second session. Start tag {tag}\n\nmonth    well          readings  missing  bytes  runs  tag\n"
        );
        self.note(head);
    }

    // The row of a month: its readings have so many bytes, and took so many runs. No number behind those of a month counts as missing.
    pub fn month(&mut self, header: Header, levels: &[i32], bytes: usize, runs: usize, tag: &[u8]) {
        let date = Date::from(header);
        let name = Name(header.name);
        let count = header.count;
        let gone = missing(levels);
        let tag = Hex(tag);
        let row = print!(self.output;
            "{date}  {name:<14}{count:>8}{gone:>9}{bytes:>7}{runs:>6}  {tag}\n"
        );
        self.note(row);
    }

    // The names that the borehole goes by, where there are two or more.
    pub fn names(&mut self, year: &Year) {
        let names = print!(self.output; "{}", Names(year));
        self.note(names);
    }

    // What of the file is in the table and what is not, then the last line: the program has no other way to tell how it came out.
    pub fn foot(&mut self, found: Found<'_>) {
        let comments = found.comments;
        let blanks = found.blanks;
        let months = found.year.len();
        let lines = print!(self.output;
            "\nSkipped lines: {comments} with a comment, {blanks} blank.\nMonths: {months}. "
        );
        self.note(lines);
        // The good line only if all before it was written.
        if self.written || self.verdict != Verdict::Same {
            let last = self.output.println(self.verdict);
            self.note(last);
        }
        if !self.written {
            wrong::file::unwritten(self.errors);
        }
    }
}
