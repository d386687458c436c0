// Headers: each case is a header, the 24 bytes that say it, and the number expected of writing the one and of reading the other.
ghost use Rattle.std.specs.Prelude.{◌+◌, ◌≤◌, length};

use crate::group::{Cases, judged};
use dip::Header;
use std::io;
use table::number_of;

// A well of the usual kind, and its bytes.
pub const USUAL: Header = Header {
    name: *b"BORE-7\0\0\0\0\0\0",
    borehole: 4711,
    year: 2024,
    month: 6,
    count: 30,
    datum: 125_000,
};

const BYTES: [u8; 24] = [
    0x42, 0x4f, 0x52, 0x45, 0x2d, 0x37, 0, 0, 0, 0, 0, 0, 0x67, 0x12, 0, 0, 0xe8, 0x07, 6, 30,
    0x48, 0xe8, 0x01, 0,
];

#[derive(Clone, Copy)]
struct Case {
    header: Header,
    bytes: [u8; 24],
    // A number of the client's, and no `Refusal`: what the library's `number` makes of one is tried too.
    expected: u8,
}

impl Case {
    // The usual bytes with others from `at` on, a place that the part does not say; the number is the client's.
    fn of(header: Header, at: usize, part: &[u8], expected: u8) -> Case
        requires { at + length part.now ≤ 24 }
    {
        let mut bytes = BYTES;
        bytes[at..at + part.len()].copy_from_slice(part);
        Case {
            header,
            bytes,
            expected,
        }
    }

    // The usual bytes under another name; the number is the client's.
    fn named(name: &[u8; 12], expected: u8) -> Case {
        let header = Header {
            name: *name,
            ..USUAL
        };
        Case::of(header, 0, name, expected)
    }

    // Written into AA: the bytes where it is done, what was lent where it is refused.
    fn write(self) -> Result<u8, u8> {
        let mut out = [0xaa; 24];
        let number = number_of(dip::write_header(self.header, &mut out));
        let left = if self.expected == 0 {
            self.bytes
        } else {
            [0xaa; 24]
        };
        judged(number, number == self.expected && out == left)
    }

    fn read(self) -> Result<u8, u8> {
        let answer = dip::read_header(&self.bytes);
        let same = answer.is_err() || answer == Ok(self.header);
        let number = number_of(answer);
        judged(number, number == self.expected && same)
    }
}

fn line(cases: &mut Cases<'_, impl Print>, name: &str, group: &[Case]) -> io::Result<()> {
    cases.begin(name)?;
    for case in group {
        cases.case(case.write())?;
        cases.case(case.read())?;
    }
    cases.end()
}

fn names() -> [Case; 9] {
    [
        Case::named(b" \0\0\0\0\0\0\0\0\0\0\0", 10),
        Case::named(b"!\0\0\0\0\0\0\0\0\0\0\0", 0),
        Case::named(b"~\0\0\0\0\0\0\0\0\0\0\0", 0),
        Case::named(b"\x7f\0\0\0\0\0\0\0\0\0\0\0", 10),
        Case::named(&[0; 12], 10),
        Case::named(b"WWWWWWWWWWWW", 0),
        Case::named(b"WWWWWWWWWWW\x80", 10),
        Case::named(b"W\x001\0\0\0\0\0\0\0\0\0", 10),
        Case::named(b"\0W\0\0\0\0\0\0\0\0\0\0", 10),
    ]
}

fn boreholes() -> [Case; 4] {
    [
        (0, [0, 0, 0, 0], 11),
        (1, [1, 0, 0, 0], 0),
        (0x0102_0304, [4, 3, 2, 1], 0),
        (0xffff_ffff, [0xff; 4], 0),
    ]
    .map(|(borehole, bytes, expected)| {
        let header = Header { borehole, ..USUAL };
        Case::of(header, 12, &bytes, expected)
    })
}

// The bytes are those of the year.
fn dates() -> [Case; 8] {
    [
        (1899, 12, [0x6b, 0x07], 12),
        (1900, 1, [0x6c, 0x07], 0),
        (2199, 12, [0x97, 0x08], 0),
        (2200, 1, [0x98, 0x08], 12),
        (2024, 0, [0xe8, 0x07], 12),
        (2024, 13, [0xe8, 0x07], 12),
        (0, 6, [0, 0], 12),
        (65_535, 255, [0xff, 0xff], 12),
    ]
    .map(|(year, month, [low, high], expected)| {
        let header = Header {
            year,
            month,
            ..USUAL
        };
        Case::of(header, 16, &[low, high, month], expected)
    })
}

fn counts() -> [Case; 4] {
    [(0, 0), (31, 0), (32, 13), (255, 13)].map(|(count, expected)| {
        let header = Header { count, ..USUAL };
        Case::of(header, 19, &[count], expected)
    })
}

fn datums() -> [Case; 8] {
    [
        (-500_001, [0xdf, 0x5e, 0xf8, 0xff], 14),
        (-500_000, [0xe0, 0x5e, 0xf8, 0xff], 0),
        (-1, [0xff; 4], 0),
        (0, [0; 4], 0),
        (9_000_000, [0x40, 0x54, 0x89, 0x00], 0),
        (9_000_001, [0x41, 0x54, 0x89, 0x00], 14),
        (2_147_483_647, [0xff, 0xff, 0xff, 0x7f], 14),
        (-2_147_483_648, [0, 0, 0, 0x80], 14),
    ]
    .map(|(datum, bytes, expected)| {
        let header = Header { datum, ..USUAL };
        Case::of(header, 20, &bytes, expected)
    })
}

// Several faults at once: each case puts the first one right.
fn faults() -> [Case; 5] {
    let blank = Case {
        header: Header::default(),
        bytes: [0; 24],
        expected: 10,
    };
    let [b, c, d, e] = [
        (0, 13, 32, 11),
        (1, 13, 32, 12),
        (1, 12, 32, 13),
        (1, 12, 31, 14),
    ]
    .map(|(first, month, count, expected)| {
        let header = Header {
            borehole: u32::from(first),
            month,
            count,
            datum: 9_000_001,
            ..USUAL
        };
        let part = [
            first, 0, 0, 0, 0xe8, 0x07, month, count, 0x41, 0x54, 0x89, 0x00,
        ];
        Case::of(header, 12, &part, expected)
    });
    [blank, b, c, d, e]
}

pub fn fields(cases: &mut Cases<'_, impl Print>) -> io::Result<()> {
    line(cases, "well name", &names())?;
    line(cases, "borehole number", &boreholes())?;
    line(cases, "year and month", &dates())?;
    line(cases, "count of readings", &counts())?;
    line(cases, "datum", &datums())?;
    line(cases, "several faults", &faults())
}

// Of 25 bytes of AA the first so many are lent, which are not 24. An array of which a part is lent, so that a byte written behind that part is seen.
fn lent(header: Header, n: usize) -> Result<u8, u8> {
    let mut out = [0xaa; 25];
    let number = number_of(dip::write_header(header, &mut out[..n.min(25)]));
    judged(number, number == 9 && out == [0xaa; 25])
}

// Bytes given, and bytes lent, of another length than 24.
pub fn lengths(cases: &mut Cases<'_, impl Print>) -> io::Result<()> {
    cases.begin("header length")?;
    for (bytes, expected) in [
        (&BYTES[..0], 9),
        (&BYTES[..23], 9),
        (&BYTES[..], 0),
        (&[0; 25], 9),
    ] {
        let number = number_of(dip::read_header(bytes));
        cases.case(judged(number, number == expected))?;
    }
    cases.case(lent(USUAL, 0))?;
    cases.case(lent(USUAL, 23))?;
    cases.case(lent(Header::default(), 25))?;
    cases.end()
}
