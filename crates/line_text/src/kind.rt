// What a line is: a month begins with its well, at the line's first byte; a comment begins with a blank, then `#`. A well may have
// any name of 0x21 to 0x7E, `#` among them, but no name begins with a blank: so no month is ever taken for a comment.
ghost use Rattle.std.specs.Prelude.{◌≡◌, ◌≤◌, get_or};

use crate::line_words::Words;
use crate::places::is_space;

#[derive(Clone, Copy, Debug, PartialEq, Eq)]
pub enum Kind {
    Blank,
    Comment,
    Indented,
    Month,
}

// A line that begins with a blank, by its first word.
fn indented(line: &[u8]) -> Kind {
    match Words::of(line).next() {
        None => Kind::Blank,
        Some([b'#', ..]) => Kind::Comment,
        Some(_) => Kind::Indented,
    }
}

// A line that begins with a byte of a name, 0x21 or above, is a month.
pub fn kind_of(line: &[u8]) -> Kind
    ensures { 33 ≤ get_or line.now 0 0 → result ≡ Kind.Month }
{
    match line {
        [] => Kind::Blank,
        [b, ..] if is_space(*b) => indented(line),
        _ => Kind::Month,
    }
}

// Whether a text begins with a byte order mark, of UTF-8 or of UTF-16: it is no part of any name.
pub fn has_mark(text: &[u8]) -> bool {
    text.starts_with(b"\xef\xbb\xbf")
        || text.starts_with(b"\xff\xfe")
        || text.starts_with(b"\xfe\xff")
}
