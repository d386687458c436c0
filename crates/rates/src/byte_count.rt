// A count of bytes: a type of its own, which all code above takes its numbers of bytes in. Where a slice's length becomes one, and where
// one becomes a byte of a block.
ghost use Rattle.std.specs.Prelude.{◌≡◌, ◌+◌, ◌-◌, ◌<◌, ◌≤◌, length};
ghost use Rattle.std.specs.Int.{w64};
ghost use Rattle.std.proofs.Common.{Fits};

use std::ops::{Add, Sub};

#[derive(Clone, Copy, Debug, PartialEq, Eq, PartialOrd, Ord)]
pub struct ByteCount(pub usize);

// The bytes of a chaining value at every instance here, for the arrays that hold one.
pub const CHAIN_BYTES: ByteCount = ByteCount(32);

impl Add for ByteCount {
    type Output = ByteCount;

    ghost can_add = { λ n k. Fits w64 (n.0 + k.0) };

    ghost add_gives = { λ n k r. r.0 ≡ n.0 + k.0 };

    fn add(self, rhs: ByteCount) -> ByteCount {
        ByteCount(self.0 + rhs.0)
    }
}

impl Sub for ByteCount {
    type Output = ByteCount;

    ghost can_sub = { λ n k. k.0 ≤ n.0 };

    ghost sub_gives = { λ n k r. r.0 ≡ n.0 - k.0 };

    fn sub(self, rhs: ByteCount) -> ByteCount {
        ByteCount(self.0 - rhs.0)
    }
}

impl ByteCount {
    pub fn of(s: &[u8]) -> ByteCount
        ensures { result.0 ≡ length s.now }
    {
        ByteCount(s.len())
    }

    // As a byte of a block: an offset byte, or an EOM. `TryFrom` would bring an error that cannot be.
    pub fn as_byte(self) -> u8
        requires { self.0 < 256 }
        ensures { result ≡ self.0 }
    {
        self.0 as u8
    }
}
