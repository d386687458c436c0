// Lanes of 64 bits.
ghost use Rattle.std.specs.Prelude.{refl};
ghost use Rattle.lanes.specs.Width.{width64};

use crate::Lanes;
use crate::steps::{chi, rho_pi, theta};
use endian::Little;

// The four methods of one lane are as at the other width, a line or two each: as provided methods over a lane's own type they would want its xor as a law, and a method
// that lends one lane, for each of the two.
impl Lanes for [u64; 25] {
    ghost L = { 6 };

    ghost BYTES = { 8 };

    ghost lanes = { λ x. x };

    ghost of_lanes = { λ x. x };

    const L: usize = 6;

    const BYTES: usize = 8;

    fn zero() -> Self {
        [0; 25]
    }

    fn theta(self) -> Self {
        theta!(self, 64)
    }

    fn rho_pi(self) -> Self {
        rho_pi!(self, 64)
    }

    fn chi(self) -> Self {
        chi!(self)
    }

    fn iota(self, k: u64) -> Self {
        let mut b = self;
        b[0] ^= k;
        b
    }

    fn xor_lane(&mut self, q: usize, s: &[u8]) {
        self[q] ^= u64::load(s);
    }

    fn xor_part(&mut self, q: usize, s: &[u8]) {
        self[q] ^= u64::load_part(s);
    }

    fn mask_lane(&self, q: usize, s: &[u8], out: &mut [u8]) {
        let masked = u64::load(s) ^ self[q];
        masked.store(out);
    }

    fn mask_part(&self, q: usize, s: &[u8], out: &mut [u8]) {
        let masked = u64::load_part(s) ^ self[q];
        masked.store_part(out);
    }

    fn known(self) {}

    ghost there = { λ s. refl };

    ghost back = { λ x. refl };

    ghost width = { width64 };
}
