// One series: pairs of headers, and whether their borehole numbers agree, whatever else differs; told as 1 and 0.
use crate::group::{Cases, judged};
use crate::header::USUAL;
use dip::Header;
use std::io;

// The usual borehole under another name, with another month and other levels.
const RENAMED: Header = Header {
    name: *b"KW-4\0\0\0\0\0\0\0\0",
    borehole: 4711,
    year: 1900,
    month: 1,
    count: 0,
    datum: 0,
};

// The usual header over another number: no `From`, since most of it is not of the number.
fn numbered(borehole: u32) -> Header {
    Header { borehole, ..USUAL }
}

// A header that no reading gives, over a number: its name and date are refused. No `From`, as above.
fn unread(borehole: u32) -> Header {
    Header {
        borehole,
        ..Header::default()
    }
}

pub fn pairs(cases: &mut Cases<'_, impl Print>) -> io::Result<()> {
    cases.begin("one series")?;
    for (a, b, expected) in [
        (USUAL, USUAL, true),
        (USUAL, RENAMED, true),
        (RENAMED, USUAL, true),
        // One name over two numbers, which differ in one byte alone, from the lowest to the highest, agree in the lowest alone, or in none.
        (USUAL, numbered(0x1268), false),
        (USUAL, numbered(0x0067), false),
        (USUAL, numbered(0x0001_1267), false),
        (USUAL, numbered(0x0100_1267), false),
        (numbered(0x67), numbered(0xffff_ff67), false),
        (numbered(1), numbered(0xffff_fffe), false),
        (USUAL, unread(4711), true),
        (unread(0), unread(0), true),
        (numbered(0), unread(0), true),
        (unread(0), USUAL, false),
    ] {
        let same = dip::same_series(a, b);
        cases.case(judged(u8::from(same), same == expected))?;
    }
    cases.end()
}
