// Readings: each case is a count, a run of numbers, the bytes of its readings, and what both calls are to answer; all that they leave is looked at too.
use crate::group::{Cases, Told, judged};
use std::io;

// A number past the count, which is no reading.
const PAST: i32 = 2_000_001;

// What a lent run holds: no case has it.
const LENT: i32 = 9;

// Whether a call left a room so: what it made at the front, and what was lent behind it.
fn is_left<T: Copy + PartialEq>(room: &[T], made: &[T], lent: T) -> bool {
    room.strip_prefix(made)
        .is_some_and(|rest| rest.iter().all(|x| *x == lent))
}

// Both calls are lent the front of a room of one size for all cases: no allocator is handed in for one as long as the case, and what stands behind
// the lent part is looked at too.
#[derive(Drop)]
struct Case<'a> {
    count: usize,
    run: &'a [i32],
    bytes: &'a [u8],
    expected: Told,
}

impl Case<'_> {
    // Read into a run as long: the readings where it is done, and the numbers past the count stay; what was lent where it is refused. A part of an array is lent, so that
    // what lies behind it is looked at too.
    fn read(&self) -> Result<Told, Told> {
        let mut room = [LENT; 40];
        let lent = &mut room[..self.run.len().min(40)];
        let told = Told::from(dip::read_readings(self.count, self.bytes, lent));
        let read = if self.expected == Told(0, 0) {
            self.run.get(..self.count)
        } else {
            None
        };
        judged(
            told,
            told == self.expected && is_left(&room, read.unwrap_or(&[]), LENT),
        )
    }

    // Written into as many AA, a part of an array likewise.
    fn write(&self) -> Result<Told, Told> {
        let mut room = [0xaa; 160];
        let lent = &mut room[..self.bytes.len().min(160)];
        let told = Told::from(dip::write_readings(self.count, self.run, lent));
        let written = if self.expected == Told(0, 0) {
            self.bytes
        } else {
            &[]
        };
        judged(told, told == self.expected && is_left(&room, written, 0xaa))
    }

    fn tell(&self, cases: &mut Cases<'_, impl Print>) -> io::Result<()> {
        cases.case(self.read())?;
        cases.case(self.write())
    }
}

// A reading in the middle of three.
fn levels(cases: &mut Cases<'_, impl Print>) -> io::Result<()> {
    cases.begin("reading")?;
    for (z, [a, b, c, d], expected) in [
        (-2_000_001, [0x7f, 0x7b, 0xe1, 0xff], Told(16, 1)),
        (-2_000_000, [0x80, 0x7b, 0xe1, 0xff], Told(0, 0)),
        (0, [0, 0, 0, 0], Told(0, 0)),
        (0x0001_0203, [3, 2, 1, 0], Told(0, 0)),
        (2_000_000, [0x80, 0x84, 0x1e, 0x00], Told(0, 0)),
        (2_000_001, [0x81, 0x84, 0x1e, 0x00], Told(16, 1)),
        (2_147_483_647, [0xff, 0xff, 0xff, 0x7f], Told(16, 1)),
        (-2_147_483_648, [0, 0, 0, 0x80], Told(0, 0)),
        (-2_147_483_647, [1, 0, 0, 0x80], Told(16, 1)),
    ] {
        let case = Case {
            count: 3,
            run: &[1, z, -1, PAST],
            bytes: &[1, 0, 0, 0, a, b, c, d, 0xff, 0xff, 0xff, 0xff],
            expected,
        };
        case.tell(cases)?;
    }
    cases.end()
}

#[derive(Clone, Copy)]
enum Kind {
    Fine,
    Above,
    Below,
    Missing,
}

impl Kind {
    // A reading of this kind, and its bytes.
    fn reading(self) -> (i32, [u8; 4]) {
        match self {
            Kind::Fine => (5, [5, 0, 0, 0]),
            Kind::Above => (2_000_001, [0x81, 0x84, 0x1e, 0x00]),
            Kind::Below => (-2_000_001, [0x7f, 0x7b, 0xe1, 0xff]),
            Kind::Missing => (-2_147_483_648, [0, 0, 0, 0x80]),
        }
    }
}

// Three readings by their kinds, and a number past the count.
fn three(cases: &mut Cases<'_, impl Print>, kinds: [Kind; 3], expected: Told) -> io::Result<()> {
    let [(x, a), (y, b), (z, c)] = kinds.map(Kind::reading);
    Case {
        count: 3,
        run: &[x, y, z, PAST],
        bytes: [a, b, c].as_flattened(),
        expected,
    }
    .tell(cases)
}

// A month's only reading, in a run that has no more.
fn one(cases: &mut Cases<'_, impl Print>, kind: Kind, expected: Told) -> io::Result<()> {
    let (z, bytes) = kind.reading();
    Case {
        count: 1,
        run: &[z],
        bytes: &bytes,
        expected,
    }
    .tell(cases)
}

// The last of as many readings as a month may have.
fn last_of_31(cases: &mut Cases<'_, impl Print>) -> io::Result<()> {
    let mut run = [0; 31];
    run[30] = PAST;
    let mut bytes = [0; 124];
    bytes[120..].copy_from_slice(&[0x81, 0x84, 0x1e, 0x00]);
    Case {
        count: 31,
        run: &run,
        bytes: &bytes,
        expected: Told(16, 30),
    }
    .tell(cases)
}

// First, last, two and all bad; a missing one before, behind and between bad ones; a month's only one; the last of 31.
fn places(cases: &mut Cases<'_, impl Print>) -> io::Result<()> {
    use Kind::{Above, Below, Fine, Missing};

    cases.begin("which reading is bad")?;
    three(cases, [Above, Fine, Fine], Told(16, 0))?;
    three(cases, [Fine, Fine, Below], Told(16, 2))?;
    three(cases, [Fine, Above, Below], Told(16, 1))?;
    three(cases, [Below, Fine, Above], Told(16, 0))?;
    three(cases, [Above, Above, Above], Told(16, 0))?;
    three(cases, [Missing, Above, Fine], Told(16, 1))?;
    three(cases, [Below, Missing, Above], Told(16, 0))?;
    three(cases, [Missing, Missing, Below], Told(16, 2))?;
    three(cases, [Fine, Missing, Fine], Told(0, 0))?;
    one(cases, Above, Told(16, 0))?;
    one(cases, Below, Told(16, 0))?;
    last_of_31(cases)?;
    cases.end()
}

// The numbers of the run, the count, the bytes, and the client's number that they are refused with. A tuple: the tables are read by columns.
type Sizes = (usize, usize, usize, u8);

// Refused for the sizes alone, though every reading is out of range.
fn refused(cases: &mut Cases<'_, impl Print>, name: &str, sizes: &[Sizes]) -> io::Result<()> {
    cases.begin(name)?;
    for (room, count, size, number) in sizes.iter().copied() {
        let case = Case {
            count,
            // Of arrays that are longer, since the lengths come from the table and no allocator is handed in.
            run: &[PAST; 40][..room.min(40)],
            bytes: &[0xaa; 160][..size.min(160)],
            expected: Told(number, 0),
        };
        case.tell(cases)?;
    }
    cases.end()
}

// A month without a visit: count 0 and no text. The run is left as it was.
fn no_visit(cases: &mut Cases<'_, impl Print>) -> io::Result<()> {
    Case {
        count: 0,
        run: &[5; 2],
        bytes: &[],
        expected: Told(0, 0),
    }
    .tell(cases)
}

// 31 readings of which the first and the last are missing, in a run of 32: its last number stays.
fn full_month(cases: &mut Cases<'_, impl Print>) -> io::Result<()> {
    let mut run = [0; 32];
    run[0] = -2_147_483_648;
    run[30] = -2_147_483_648;
    run[31] = 5;
    let mut bytes = [0; 124];
    bytes[3] = 0x80;
    bytes[123] = 0x80;
    Case {
        count: 31,
        run: &run,
        bytes: &bytes,
        expected: Told(0, 0),
    }
    .tell(cases)
}

// The last two counts are such that four times the count is no number of the machine; the last would be 4 there.
const COUNTS: [Sizes; 6] = [
    (30, 31, 124, 6),
    (31, 32, 128, 6),
    (32, 32, 128, 13),
    (32, 32, 127, 13),
    (0, 0xffff_ffff_ffff_ffff, 0, 6),
    (1, 0x4000_0000_0000_0001, 4, 6),
];

const LENGTHS: [Sizes; 4] = [
    (31, 31, 123, 15),
    (31, 31, 125, 15),
    (31, 31, 0, 15),
    (0, 0, 1, 15),
];

pub fn months(cases: &mut Cases<'_, impl Print>) -> io::Result<()> {
    levels(cases)?;
    places(cases)?;
    refused(cases, "run and count", &COUNTS)?;
    refused(cases, "readings length", &LENGTHS)?;
    cases.begin("whole months")?;
    no_visit(cases)?;
    full_month(cases)?;
    cases.end()
}
