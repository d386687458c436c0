// An instance by its parameters, which are counted in bits, and its rates, by document 003's rule.
ghost use Rattle.std.specs.Prelude.{◌≡◌, ◌-◌, ◌*◌, ◌/◌, ◌<◌, ◌≤◌};
ghost use Rattle.motorist.specs.Instance.{solo, round_up};
ghost use Rattle.lanes.specs.Width.{instance};
ghost use Rattle.rates.specs.Counts.{RatesOf};

use crate::Rates;
use crate::bits::BitCount;
use crate::byte_count::ByteCount;
use lanes::Lanes;

// No count of bits here is above 1600, the largest width there is.
#[derive(Clone, Copy)]
struct Instance {
    width: BitCount,
    lane: BitCount,
    capacity: BitCount,
    ghost bounded: { (0 < lane.0) × (lane.0 ≤ 1600) × (capacity.0 ≤ 1591) },
}

impl Instance {
    // The largest multiple of a lane that leaves k bits.
    fn lanes_beside(self, k: BitCount) -> BitCount
        ensures { result.0 ≡ (self.width.0 - k.0) / self.lane.0 * self.lane.0 }
    {
        BitCount(self.width.0.saturating_sub(k.0) / self.lane.0 * self.lane.0)
    }

    // The smallest multiple of a lane from n on.
    fn lanes_around(self, n: BitCount) -> BitCount
        requires { n.0 ≤ 1600 }
        ensures { result.0 ≡ round_up n.0 self.lane.0 * self.lane.0 }
    {
        BitCount(n.0.div_ceil(self.lane.0) * self.lane.0)
    }

    // 32 bits at least are kept back for the offset bytes, and a key pack holds nine bits more than the capacity.
    fn rates(self) -> Rates
        ensures { RatesOf (solo self.width.0 self.lane.0 self.capacity.0) result }
    {
        let offsets = BitCount(32);
        let capacity = self.capacity;
        Rates {
            text: ByteCount::from(self.lanes_beside(capacity.max(offsets))),
            full: ByteCount::from(self.lanes_beside(offsets)),
            pack: ByteCount::from(self.lanes_around(BitCount(capacity.0 + 9))),
            chain: ByteCount::from(self.lanes_around(capacity)),
            tag: ByteCount::from(BitCount(128)),
        }
    }
}

impl Rates {
    // Those of Keyak's instance of one Piston on such lanes, which has no number but the width of a lane.
    pub fn of<L: Lanes>() -> Rates
        ensures { RatesOf (instance L.L) result }
    {
        let lane = BitCount(1 << L::L);
        let keyak = Instance {
            width: BitCount(25 * lane.0),
            lane,
            capacity: BitCount(256),
        };
        keyak.rates()
    }
}
