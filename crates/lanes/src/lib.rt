// 25 lanes, lane 5 y + x for column x and row y, at either width: what the permutation and the Piston ask of them (`Lanes`), for `[u64; 25]` and
// `[u32; 25]`. Everything above says `Lanes` and knows no width. Serves the crates above; no public call.
#![tactic(auto)]

ghost use Rattle.std.specs.Prelude.{◌≡◌, List, ℕ, ◌<◌, ◌≤◌, ◌%◌, ◌^◌, ◌*◌, length, set, get_or, replicate};
ghost use Rattle.std.specs.Int.Bits.{bit_xor};
ghost use Rattle.endian.specs.Little.{from_bytes, to_bytes};
ghost use Rattle.keccak.specs.State.{bytes};
ghost use Rattle.keccak.specs.Lanes.{theta_l, rho_pi_l, chi_l, iota_l};
ghost use Rattle.lanes.specs.Width.{IsState, Width};

mod narrow;
mod steps;
mod wide;

pub trait Lanes: Copy {
    // A lane has 2 ^ L bits, which are BYTES bytes.
    ghost L: { ℕ };

    ghost BYTES: { ℕ };

    // The lanes as numbers, and back: the two are each other's inverse, since an array is its list.
    ghost lanes: { Self → List ℕ };

    ghost of_lanes: { List ℕ → Self };

    const L: usize;

    const BYTES: usize;

    fn zero() -> Self
        ensures { bytes BYTES (lanes result) ≡ replicate (BYTES * 25) 0 };

    // θ: each lane takes in the parities of the columns left and right of it.
    fn theta(self) -> Self
        ensures { lanes result ≡ theta_l (2 ^ L) (lanes self) };

    // ρ, then π: lane (x, y) is lane (x + 3 y, x), rotated by its offset modulo the width.
    fn rho_pi(self) -> Self
        ensures { lanes result ≡ rho_pi_l (2 ^ L) (lanes self) };

    // χ: each lane takes in a product of the next two in its row.
    fn chi(self) -> Self
        ensures { lanes result ≡ chi_l (2 ^ L) (lanes self) };

    // ι: lane (0, 0) takes in the constant, of which a narrower lane has the lowest bits.
    fn iota(self, k: u64) -> Self
        ensures { lanes result ≡ iota_l (k % 2 ^ 2 ^ L) (lanes self) };

    // The bytes s, a whole lane's, xored into lane q; and fewer bytes. Two methods, here and below, since a whole lane is one load, without a test of the length.
    // q and s apart: a type for the place of a lane, with q < 25 in it, would be built at each call to be taken apart at once.
    fn xor_lane(&mut self, q: usize, s: &[u8])
        requires { (q < 25) × (length s.now ≡ BYTES) }
        ensures { lanes self.new ≡ set (lanes self.old) q (bit_xor (get_or (lanes self.old) q 0) (from_bytes s.now)) };

    fn xor_part(&mut self, q: usize, s: &[u8])
        requires { (q < 25) × (length s.now ≤ BYTES) }
        ensures { lanes self.new ≡ set (lanes self.old) q (bit_xor (get_or (lanes self.old) q 0) (from_bytes s.now)) };

    // The bytes s, a whole lane's, under the key stream of lane q into out; and fewer bytes. q, s and out apart, as above.
    fn mask_lane(&self, q: usize, s: &[u8], out: &mut [u8])
        requires { (q < 25) × (length s.now ≡ BYTES) × (length out.old ≡ length s.now) }
        ensures { out.new ≡ to_bytes (length s.now) (bit_xor (from_bytes s.now) (get_or (lanes self.now) q 0)) };

    fn mask_part(&self, q: usize, s: &[u8], out: &mut [u8])
        requires { (q < 25) × (length s.now ≤ BYTES) × (length out.old ≡ length s.now) }
        ensures { out.new ≡ to_bytes (length s.now) (bit_xor (from_bytes s.now) (get_or (lanes self.now) q 0)) };

    // Does nothing: it says of these lanes what their type says of any, which a type parameter does not.
    fn known(self)
        ensures { IsState (2 ^ L) (lanes self) };

    ghost there: { (s : List ℕ) → lanes (of_lanes s) ≡ s };

    ghost back: { (x : Self) → of_lanes (lanes x) ≡ x };

    ghost width: { Width L BYTES };
}
