// States and counts at lanes of either width: KECCAK-f of the zero state, and each count that the public call may be asked.
use crate::compare::agrees;
use crate::published::Published;
use lanes::Lanes;
use permutation::permute;
use std::array;
use trials::lanes::LaneBytes;
use trials::tally::Tally;

// Whether the bytes of the lanes are `hex`.
fn says<L: LaneBytes>(lanes: L, hex: &str) -> bool {
    agrees(&lanes.to_bytes()[..25 * L::WIDTH], hex.as_bytes())
}

// Lane i holds i. A cast, since std has no `From` that takes a `usize`.
fn start<L: LaneBytes>() -> L {
    L::narrowed(array::from_fn(|i| i as u64))
}

// Whether the call, asked for `count` rounds, answers `rounds`, and whether the bytes of its lanes are `hex`.
fn asked<L: Lanes + LaneBytes>(count: usize, rounds: usize, hex: &str) -> [bool; 2] {
    let after = permute(start::<L>(), count);
    [after.rounds == rounds, says(after.lanes, hex)]
}

// KECCAK-f of the zero state, and once more.
pub fn zero<L: Lanes + LaneBytes>(published: &Published<'_>) -> Tally {
    let mut lanes = L::from_bytes([0; 200]);
    let mut tally = Tally::default();
    for hex in published.zero {
        lanes = permute(lanes, published.rounds).lanes;
        tally.note(says(lanes, hex));
    }
    tally
}

// Asked for a count that it has, the call answers it.
pub fn counts<L: Lanes + LaneBytes>(published: &Published<'_>) -> Tally {
    Tally::of(
        published
            .counts
            .iter()
            .flat_map(|(count, hex)| asked::<L>(*count, *count, hex)),
    )
}

// Asked for any other, it answers 0 and returns the lanes as given.
pub fn refusals<L: Lanes + LaneBytes>(published: &Published<'_>) -> Tally {
    Tally::of(
        published
            .refused
            .iter()
            .flat_map(|count| asked::<L>(*count, 0, published.given)),
    )
}
