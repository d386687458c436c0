// A count of bits: a type of its own, so that none can stand for a count of bytes; and the one way to bytes.
ghost use Rattle.std.specs.Prelude.{◌≡◌};
ghost use Rattle.motorist.specs.Instance.{in_bytes};

use crate::byte_count::ByteCount;

#[derive(Clone, Copy, Debug, PartialEq, Eq, PartialOrd, Ord)]
pub struct BitCount(pub usize);

impl From<BitCount> for ByteCount {
    ghost from_gives = { λ n r. r.0 ≡ in_bytes n.0 };

    fn from(n: BitCount) -> ByteCount {
        ByteCount(n.0 / 8)
    }
}
