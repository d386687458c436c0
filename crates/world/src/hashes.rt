// Published hashes over the 64-bit permutation: SHA3-256 and SHAKE128, which take all 24 rounds, and TurboSHAKE128, which takes
// the last 12. Messages are `abc`, 200 bytes A3 (the example of FIPS 202), and the pattern 00 01 .. FA 00 01 .. of RFC 9861.
ghost use Rattle.std.specs.Prelude.{◌≡◌};

use crate::compare::agrees;
use crate::sponge::{Kind, hash};
use trials::pattern::Pattern;
use trials::tally::Tally;

#[derive(Clone, Copy, Debug, PartialEq, Eq)]
enum Message {
    Abc,
    A3,
    // So many bytes of the pattern.
    Counting(usize),
}

// The longest.
const LONGEST: usize = 289;

impl Message {
    fn length(self) -> usize {
        match self {
            Message::Abc => 3,
            Message::A3 => 200,
            Message::Counting(n) => n,
        }
    }

    // 5 more than the 251 bytes from 00 to FA make 256.
    fn pattern(self) -> Pattern
        ensures { result.period ≡ 251 }
    {
        let (first, step) = match self {
            Message::Abc => (b'a', 1),
            Message::A3 => (0xA3, 0),
            Message::Counting(_) => (0, 1),
        };
        Pattern {
            first,
            step,
            period: 251,
            lift: 5,
        }
    }
}

// A published hash: its kind, and the first 32 bytes that it makes of messages.
#[derive(Clone, Copy)]
pub struct Hash<'a> {
    kind: Kind,
    published: &'a [(Message, &'a str)],
    // The last 32 of 200 bytes of the hash of no message, which stand in the second block of the output, where those are published.
    second: Option<&'a str>,
}

// FIPS 202. The messages go up to, onto and past the block of 136 bytes.
pub const SHA3_256: Hash = Hash {
    kind: Kind {
        rate: 136,
        rounds: 24,
        suffix: 0x06,
    },
    published: &[
        (
            Message::Counting(0),
            "a7ffc6f8bf1ed76651c14756a061d662f580ff4de43b49fa82d80a4b80f8434a",
        ),
        (
            Message::Abc,
            "3a985da74fe225b2045c172d6bd390bd855f086e3e9d525b46bfe24511431532",
        ),
        (
            Message::Counting(135),
            "fded8fd9d6551c601eeb3b7c6bc5e5cfd8aad1d015b7e9aaa9c9b9475231d5e2",
        ),
        (
            Message::Counting(136),
            "cf3ccff92480a29160c2d38317c430e14749bfee1788106957dfe73f8c4930e5",
        ),
        (
            Message::A3,
            "79f38adec5c20307a98ef76e8324afbfd46cfd81b22e3973c65fa1bd9de31787",
        ),
        (
            Message::Counting(289),
            "d201f5cc7d18f67ba32439c73b64b0fe10c583fb5abe912d9c09160ecddab8ef",
        ),
    ],
    second: None,
};

// FIPS 202. The block has 168 bytes.
pub const SHAKE128: Hash = Hash {
    kind: Kind {
        rate: 168,
        rounds: 24,
        suffix: 0x1F,
    },
    published: &[
        (
            Message::Counting(0),
            "7f9c2ba4e88f827d616045507605853ed73b8093f6efbc88eb1a6eacfa66ef26",
        ),
        (
            Message::Abc,
            "5881092dd818bf5cf8a3ddb793fbcba74097d5c526a6d35f97b83351940f2cc8",
        ),
        (
            Message::Counting(167),
            "1e552791cc4e93a0d4a8dc47ae49228c2faa869e40e628f6ace477aec3f1ca7a",
        ),
        (
            Message::Counting(168),
            "f15277eb61c4908d44a2853f3cde071ae2ed7a23461fbe162a1a98cf6875059c",
        ),
        (
            Message::A3,
            "131ab8d2b594946b9c81333f9bb6e0ce75c3b93104fa3469d3917457385da037",
        ),
        (
            Message::Counting(289),
            "c01d8016e4e1fac53dd46048ee4c2200607dc7d9eda44571d332f2a35099808c",
        ),
    ],
    second: Some("767be1fda69419dfb927e9df07348b196691abaeb580b32def58538b8d23f877"),
};

// RFC 9861, section 5, with the byte 1F.
pub const TURBOSHAKE128: Hash = Hash {
    kind: Kind {
        rate: 168,
        rounds: 12,
        suffix: 0x1F,
    },
    published: &[
        (
            Message::Counting(0),
            "1e415f1c5983aff2169217277d17bb538cd945a397ddec541f1ce41af2c1b74c",
        ),
        (
            Message::Counting(1),
            "55cedd6f60af7bb29a4042ae832ef3f58db7299f893ebb9247247d856958daa9",
        ),
        (
            Message::Counting(17),
            "9c97d036a3bac819db70ede0ca554ec6e4c2a1a4ffbfd9ec269ca6a111161233",
        ),
        (
            Message::Counting(289),
            "96c77c279e0126f7fc07c9b07f5cdae1e0be60bdbe10620040e75d7223a624d2",
        ),
    ],
    second: None,
};

impl Hash<'_> {
    // Whether the first 32 bytes of the hash of a message are `hex`. The message is the front of an array as long as the longest: no allocator is
    // handed in for one of its own length, and `hash` takes a slice.
    fn is_hash(&self, message: Message, hex: &str) -> bool {
        let mut room = [0; LONGEST];
        let mut out = [0; 32];
        let bytes = &mut room[..message.length().min(LONGEST)];
        message.pattern().fill(bytes);
        hash(self.kind, bytes, &mut out);
        agrees(&out, hex.as_bytes())
    }

    fn is_second(&self, hex: &str) -> bool {
        let mut out = [0; 200];
        hash(self.kind, &[], &mut out);
        agrees(&out[168..], hex.as_bytes())
    }

    // How many of the published bytes agree.
    pub fn tally(&self) -> Tally {
        let firsts = self
            .published
            .iter()
            .map(|(message, hex)| self.is_hash(*message, hex));
        let second = self.second.map(|hex| self.is_second(hex));
        Tally::of(firsts.chain(second))
    }
}
