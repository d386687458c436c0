// The lanes of a state as bytes, and bytes as lanes: each little-endian, lane (x, y) at place 5y + x, as docs/VECTORS.md tells them.
// By code of its own, so that no wrong reading of lanes in the library can hide itself from the programs that try it.
ghost use Rattle.std.specs.Prelude.{◌<◌, ◌≤◌, ℕ};
ghost use Rattle.std.proofs.Common.{rules};

// A state as bytes: all of them at 64 bits; at 32 the first 100, and zeros. Of one length, since Rattle has no computed const argument for 25 lanes
// of `WIDTH` bytes.
pub type State = [u8; 200];

// 25 lanes of either width.
pub trait LaneBytes: Copy {
    // How many bytes a lane has.
    const WIDTH: usize;

    ghost WIDTH: { ℕ };

    fn widened(self) -> [u64; 25];

    // Of each lane what there is room for, its lowest bytes.
    fn narrowed(lanes: [u64; 25]) -> Self;

    ghost within: { (0 < WIDTH) × (WIDTH ≤ 8) };

    final fn to_bytes(self) -> State {
        let mut state = [0; 200];
        for (to, lane) in state.chunks_exact_mut(Self::WIDTH).zip(self.widened()) {
            to.copy_from_slice(&lane.to_le_bytes()[..Self::WIDTH]);
        }
        state
    }

    final fn from_bytes(state: State) -> Self {
        let mut lanes = [0; 25];
        for (lane, from) in lanes.iter_mut().zip(state.chunks_exact(Self::WIDTH)) {
            let mut whole = [0; 8];
            whole[..Self::WIDTH].copy_from_slice(from);
            *lane = u64::from_le_bytes(whole);
        }
        Self::narrowed(lanes)
    }
}

impl LaneBytes for [u64; 25] {
    const WIDTH: usize = 8;

    ghost WIDTH = { 8 };

    fn widened(self) -> [u64; 25] {
        self
    }

    fn narrowed(lanes: [u64; 25]) -> Self {
        lanes
    }

    ghost within = { Prim.search rules };
}

// Of a lane its lowest four bytes: `u32::try_from` refuses what does not fit.
fn lowest(lane: u64) -> u32 {
    let [a, b, c, d, ..] = lane.to_le_bytes();
    u32::from_le_bytes([a, b, c, d])
}

impl LaneBytes for [u32; 25] {
    const WIDTH: usize = 4;

    ghost WIDTH = { 4 };

    fn widened(self) -> [u64; 25] {
        self.map(u64::from)
    }

    fn narrowed(lanes: [u64; 25]) -> Self {
        lanes.map(lowest)
    }

    ghost within = { Prim.search rules };
}
