// The rates of an instance, in code: derived from width, lane and capacity, which are counted in bits, by document 003's rule.
// Serves the block code, which takes every such number from here, and the counts of its own; no public call.
#![tactic(auto)]

ghost use Rattle.std.specs.Prelude.{◌≤◌};

mod bits;
mod byte_count;
mod instance;

pub use byte_count::{ByteCount, CHAIN_BYTES};

// What the block code needs to know of an instance.
#[derive(Clone, Copy, Debug, PartialEq, Eq)]
pub struct Rates {
    pub text: ByteCount,
    pub full: ByteCount,
    pub pack: ByteCount,
    pub chain: ByteCount,
    pub tag: ByteCount,
    ghost text_fits: { text.0 ≤ full.0 },
}
