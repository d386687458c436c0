// What is said of the program's words and its files where they stop the job, and that nothing was sealed. Serves the main job.
ghost use Rattle.std.specs.Prelude.{◌≡◌};
ghost use Rattle.std.specs.IoError.{error_kind};

use show::{Quoted, Refused, tell};
use std::io::ErrorKind;
use std::{fmt, io};
use table::Refusal;

// The three files, each with its limit in words.
#[derive(Clone, Copy, Debug, PartialEq, Eq)]
pub enum Input {
    Dips,
    Key,
    Nonce,
}

impl fmt::Display for Input {
    fn fmt<W: fmt::Write>(&self, f: &mut fmt::Formatter<W>) -> fmt::Result {
        f.write_str(match self {
            Input::Dips => "a file of dips has up to 16384 bytes",
            Input::Key => "a key has 16 to 32 bytes",
            Input::Nonce => "a nonce has up to 1024 bytes",
        })
    }
}

pub fn nothing(errors: &impl Print) {
    tell(errors, "Nothing was sealed.");
}

pub fn usage(errors: &impl Print) {
    tell(errors, "usage: year lake|river DIPS KEY NONCE");
    tell(
        errors,
        "  DIPS   one borehole's year, a line a month: well, borehole, year, month, datum, readings; - for a missing one",
    );
    tell(errors, format_args!("  KEY    a file; {}", Input::Key));
    tell(
        errors,
        format_args!(
            "  NONCE  a file, for this year and key alone; {}",
            Input::Nonce
        ),
    );
    nothing(errors);
}

pub fn long_argument(errors: &impl Print) {
    tell(errors, "an argument is too long; it has up to 4096 bytes");
    nothing(errors);
}

pub fn no_instance(errors: &impl Print, word: &[u8]) {
    tell(
        errors,
        format_args!("{} is neither lake nor river", Quoted(word)),
    );
    usage(errors);
}

// What keeps a file from being taken.
#[derive(Clone, Copy, Debug, PartialEq, Eq)]
pub enum BadFile {
    Unread(ErrorKind),
    TooLong(Input),
    Marked,
    NoMonth,
}

// Why a file could not be opened or read.
fn cause(kind: ErrorKind) -> &'static str {
    match kind {
        ErrorKind::NotFound => "there is no such file",
        ErrorKind::PermissionDenied => "it may not be read",
        ErrorKind::IsADirectory => "it is a folder",
        ErrorKind::InvalidFilename => "its name is too long",
        _ => "it cannot be read",
    }
}

impl From<io::Error> for BadFile {
    ghost use Rattle.wrong.specs.declared.file.BadFile.TheVariants.{Unread};

    ghost from_gives = { λ e b. b ≡ Unread (error_kind e) };

    fn from(error: io::Error) -> BadFile
        ensures { result ≡ BadFile.Unread (error_kind error) }
    {
        BadFile::Unread(error.kind())
    }
}

impl fmt::Display for BadFile {
    fn fmt<W: fmt::Write>(&self, f: &mut fmt::Formatter<W>) -> fmt::Result {
        match self {
            BadFile::Unread(kind) => f.write_str(cause(*kind)),
            BadFile::TooLong(input) => write!(f, "too long; {input}"),
            BadFile::Marked => f.write_str(
                "begins with a byte order mark, which is no part of a name; save it as plain text (ASCII) without one",
            ),
            BadFile::NoMonth => f.write_str("there is no month in it"),
        }
    }
}

// A file's name is told first, whose bytes need not be text.
pub fn of_file(errors: &impl Print, path: &[u8], why: BadFile) {
    let _ = errors.write_all(path);
    tell(errors, format_args!(": {why}"));
}

// A call of the library that refused what the job handed it.
#[derive(Clone, Copy, Debug, PartialEq, Eq)]
pub enum BadCall {
    Start(Refusal),
    Seal(Refusal),
    Open(Refusal),
}

impl fmt::Display for BadCall {
    fn fmt<W: fmt::Write>(&self, f: &mut fmt::Formatter<W>) -> fmt::Result {
        match *self {
            BadCall::Start(why) => write!(f, "the session was not started: {}", Refused(why)),
            BadCall::Seal(why) => write!(f, "a month was not sealed: {}", Refused(why)),
            BadCall::Open(why) => write!(f, "a month was not opened: {}", Refused(why)),
        }
    }
}

// The months were sealed and opened in memory alone, so what was not shown is lost.
pub fn unwritten(errors: &impl Print) {
    tell(errors, "standard output did not take all of the table");
}
