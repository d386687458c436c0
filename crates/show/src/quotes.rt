// Bytes as a person reads them: as digits, and those of a file between quotes, one that is not printable by its number, and not too many.
use std::fmt;

// Two digits of base 16 for each. A type of its own, as each way of printing is: one type for both, with the way beside the bytes, would be no plainer.
#[derive(Clone, Copy, Debug, PartialEq, Eq)]
pub struct Hex<'a>(pub &'a [u8]);

impl<'a> fmt::Display for Hex<'a> {
    fn fmt<W: fmt::Write>(&self, f: &mut fmt::Formatter<W>) -> fmt::Result {
        for byte in self.0 {
            write!(f, "{byte:02x}")?;
        }
        Ok(())
    }
}

// How many bytes are shown between quotes.
const MOST: usize = 48;

// A type of its own, as `Hex` is: bytes have no one `Display`.
#[derive(Clone, Copy, Debug, PartialEq, Eq)]
pub struct Quoted<'a>(pub &'a [u8]);

impl<'a> fmt::Display for Quoted<'a> {
    fn fmt<W: fmt::Write>(&self, f: &mut fmt::Formatter<W>) -> fmt::Result {
        f.write_str("\"")?;
        for byte in self.0.iter().take(MOST) {
            match byte {
                0x20..=0x7e if *byte != b'"' && *byte != b'\\' => f.write_char(char::from(*byte))?,
                _ => write!(f, "\\x{byte:02x}")?,
            }
        }
        f.write_str(if MOST < self.0.len() { "...\"" } else { "\"" })
    }
}
