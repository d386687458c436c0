// Months with readings that no month has. The text's reader refuses such a line, but the cipher does not look at readings: a program that
// does not check them could seal some, so here they are put into the packets, sealed, opened, and then told.
ghost use Rattle.std.specs.Prelude.{◌<◌};

use channel::Secrets;
use packets::HEADER;
use year_text::{Found, Year};

const ABOVE: i32 = 2_000_001;

const BELOW: i32 = -2_000_001;

// A month's reading, both counted from 0, written over.
fn spoil(year: &mut Year, month: usize, reading: usize, level: i32)
    requires { reading < 31 }
{
    if let Some(month) = year.get_mut(month) {
        let (levels, _) = month.packet.bytes[HEADER..].as_chunks_mut::<4>();
        levels[reading] = level.to_le_bytes();
    }
}

// The fifth and the seventh reading of February's 31, the only one of March, the last of April's, which stands beside a missing one.
fn spoil_year(year: &mut Year) {
    spoil(year, 1, 4, ABOVE);
    spoil(year, 1, 6, BELOW);
    spoil(year, 2, 0, BELOW);
    spoil(year, 3, 2, ABOVE);
}

pub fn run(output: &impl Print) {
    let mut year = Year::new();
    let read = year_text::read_dips(
        output,
        b"KW-4 51004 2026 01 92400 -1171 -1168
KW-4 51004 2026 02 92400 1 2 3 4 5 6 7 8 9 10 11 12 13 14 15 16 17 18 19 20 21 22 23 24 25 26 27 28 29 30 31
KW-4 51004 2026 03 92400 -1150
KW-4 51004 2026 04 92400 -1149 - -1147
KW-4 51004 2026 05 92400 -1141 -1139
",
        &mut year,
    );
    if let Some(read) = read {
        // Taken out before the year is spoiled, since what was read lends it.
        let comments = read.comments;
        let blanks = read.blanks;
        spoil_year(&mut year);
        let found = Found {
            year: &year,
            comments,
            blanks,
        };
        let secrets = Secrets {
            key: b"0123456789abcdef",
            nonce: b"unread",
        };
        year_job::run_packets::<[u64; 25]>(output, output, secrets, found);
    }
}
