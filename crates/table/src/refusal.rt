// Why a call refuses: the lines of the client's table, the number of each, and the test that refuses.
ghost use Rattle.std.specs.Prelude.{◌≡◌};
ghost use Rattle.table.specs.Answers.{number, number_of, refused_if};

use std::error::Error;
use std::fmt;

#[derive(Clone, Copy, Debug, PartialEq, Eq)]
pub enum Refusal {
    NotStarted = 1,
    KeyLength = 2,
    NonceLength = 3,
    TextTooLong = 4,
    MetadataTooLong = 5,
    OutputShort = 6,
    TagLength = 7,
    TagDiffers = 8,
    HeaderLength = 9,
    Name = 10,
    BoreholeZero = 11,
    YearOrMonth = 12,
    CountOver31 = 13,
    Datum = 14,
    ReadingsLength = 15,
    ReadingRange = 16,
}

impl Refusal {
    // Its number in the table: the one beside its name above. A method and no `From`: README's callers name it.
    pub fn number(self) -> u8
        ensures { result ≡ number self }
    {
        self as u8
    }
}

// The number of an answer, as the client's table and C have it: 0 where the call is done.
pub fn number_of<T: Copy>(answer: Result<T, Refusal>) -> u8
    ensures { result ≡ number_of answer }
{
    match answer {
        Ok(_) => 0,
        Err(why) => why.number(),
    }
}

// A list of refusals is a row of these, each with a `?`: the first that holds is given.
pub fn refuse_if(holds: bool, why: Refusal) -> Result<(), Refusal>
    ensures { result ≡ refused_if holds why }
{
    if holds { Err(why) } else { Ok(()) }
}

impl fmt::Display for Refusal {
    fn fmt<W: fmt::Write>(&self, f: &mut fmt::Formatter<W>) -> fmt::Result {
        f.write_str(match self {
            Refusal::NotStarted => "session not started, or failed",
            Refusal::KeyLength => "key length: a key has 16 to 32 bytes",
            Refusal::NonceLength => "nonce length: a nonce has up to 1024 bytes",
            Refusal::TextTooLong => "text too long: up to 65535 bytes",
            Refusal::MetadataTooLong => "metadata too long: up to 65535 bytes",
            Refusal::OutputShort => "output buffer shorter than the text",
            Refusal::TagLength => "tag is not 16 bytes",
            Refusal::TagDiffers => "tag differs",
            Refusal::HeaderLength => "header is not 24 bytes",
            Refusal::Name => "name: 1 to 12 bytes of 0x21 to 0x7e, then zeros",
            Refusal::BoreholeZero => "borehole number is 0",
            Refusal::YearOrMonth => "year or month: 1900 to 2199, 1 to 12",
            Refusal::CountOver31 => "count over 31",
            Refusal::Datum => "datum out of range: -500000 to 9000000",
            Refusal::ReadingsLength => "readings are not four bytes each",
            Refusal::ReadingRange => "a reading out of range: -2000000 to 2000000, or missing",
        })
    }
}

impl Error for Refusal {}
