// The bridge between lanes and the bytes of the definitions, at every width of a lane: bytes xored into a state, text under its key stream, its first bytes out. Whole
// lanes at a time; bytes only at a run's end. Serves the code of a block; no public call. The laws are in proofs/.
#![tactic(auto)]

ghost use Rattle.std.specs.Prelude.{◌≡◌, ◌+◌, ◌*◌, ◌%◌, ◌≤◌, length, take};
ghost use Rattle.keccak.specs.State.{bytes};
ghost use Rattle.motorist.specs.Piston.{xors, mask};
ghost use Rattle.piston.specs.Placed.{placed};
ghost use Rattle.rates.specs.Counts.{chain_bytes};

use lanes::Lanes;
use rates::ByteCount;

// The bytes of s xored in from byte p on, which is the first of a lane. The lanes are changed in place: a copy for each run of bytes would cost about a seventh of
// the speed.
pub fn xor_in<L: Lanes>(lanes: &mut L, p: ByteCount, s: &[u8])
    requires { (p.0 % L.BYTES ≡ 0) × (p.0 + length s.now ≤ L.BYTES * 25) }
    ensures { bytes L.BYTES (L.lanes lanes.new) ≡ xors (bytes L.BYTES (L.lanes lanes.old)) (placed p.0 s.now) }
{
    lanes.known();
    // By the number of a lane, which the call takes. Tried: `s.chunks_exact(w).enumerate()`. What a turn of it takes stayed open: std has no law that says it of a
    // loop's turns, as `YieldsList-from_slice` does of a slice.
    let w = L::BYTES;
    let q = p.0 / w;
    let n = s.len() / w;
    for j in 0..n {
        let a = w * j;
        lanes.xor_lane(q + j, &s[a..a + w]);
    }
    let a = w * n;
    if a < s.len() {
        lanes.xor_part(q + n, &s[a..]);
    }
}

// The bytes of s under the key stream from byte p on, which is the first of a lane.
pub fn stream<L: Lanes>(lanes: L, p: ByteCount, s: &[u8], out: &mut [u8])
    requires { (p.0 % L.BYTES ≡ 0) × (p.0 + length s.now ≤ L.BYTES * 25) × (length out.old ≡ length s.now) }
    ensures { out.new ≡ mask (bytes L.BYTES (L.lanes lanes)) p.0 s.now }
{
    lanes.known();
    // As in `xor_in`, and out is cut likewise.
    let w = L::BYTES;
    let q = p.0 / w;
    let n = s.len() / w;
    for j in 0..n {
        let a = w * j;
        lanes.mask_lane(q + j, &s[a..a + w], &mut out[a..a + w]);
    }
    let a = w * n;
    if a < s.len() {
        lanes.mask_part(q + n, &s[a..], &mut out[a..]);
    }
}

// The first bytes of the state, as many as out has: zeros under the key stream.
pub fn squeeze<L: Lanes>(lanes: L, out: &mut [u8])
    requires { length out.old ≤ chain_bytes }
    ensures { out.new ≡ take (length out.old) (bytes L.BYTES (L.lanes lanes)) }
{
    lanes.known();
    let zeros = [0u8; rates::CHAIN_BYTES.0];
    let n = out.len();
    stream(lanes, ByteCount(0), &zeros[..n], out);
}
