// Lanes of 32 bits.
ghost use Rattle.std.specs.Prelude.{refl};
ghost use Rattle.lanes.specs.Width.{width32};

use crate::Lanes;
use crate::steps::{chi, rho_pi, theta};
use endian::Little;

// The four methods of one lane are as at the other width, a line or two each: as provided methods over a lane's own type they would want its xor as a law, and a method
// that lends one lane, for each of the two.
impl Lanes for [u32; 25] {
    ghost L = { 5 };

    ghost BYTES = { 4 };

    ghost lanes = { λ x. x };

    ghost of_lanes = { λ x. x };

    const L: usize = 5;

    const BYTES: usize = 4;

    fn zero() -> Self {
        [0; 25]
    }

    fn theta(self) -> Self {
        theta!(self, 32)
    }

    fn rho_pi(self) -> Self {
        rho_pi!(self, 32)
    }

    fn chi(self) -> Self {
        chi!(self)
    }

    fn iota(self, k: u64) -> Self {
        let mut b = self;
        // No `From` narrows: the constant's lowest 32 bits, as the clause has them.
        b[0] ^= (k % 0x1_0000_0000) as u32;
        b
    }

    fn xor_lane(&mut self, q: usize, s: &[u8]) {
        self[q] ^= u32::load(s);
    }

    fn xor_part(&mut self, q: usize, s: &[u8]) {
        self[q] ^= u32::load_part(s);
    }

    fn mask_lane(&self, q: usize, s: &[u8], out: &mut [u8]) {
        let masked = u32::load(s) ^ self[q];
        masked.store(out);
    }

    fn mask_part(&self, q: usize, s: &[u8], out: &mut [u8]) {
        let masked = u32::load_part(s) ^ self[q];
        masked.store_part(out);
    }

    fn known(self) {}

    ghost there = { λ s. refl };

    ghost back = { λ x. refl };

    ghost width = { width32 };
}
