// Runs published vectors through the public permutation at both widths, and says of each group how many agreed and how many differed.
#![tactic(auto)]

mod compare;
mod hashes;
mod published;
mod sponge;
mod states;

use hashes::{SHA3_256, SHAKE128, TURBOSHAKE128};
use published::{NARROW, WIDE};
use std::io;
use trials::tally::Tally;

fn main(rt: HostRuntime) -> io::Result<()> {
    let mut all = Tally::default();
    for (group, tally) in [
        (
            "SHA3-256 (24 rounds) of 0, 3, 135, 136, 200 and 289 bytes",
            SHA3_256.tally(),
        ),
        (
            "SHAKE128 (24 rounds) of 0, 3, 167, 168, 200 and 289 bytes, and a second block of output",
            SHAKE128.tally(),
        ),
        (
            "TurboSHAKE128 (12 rounds) of 0, 1, 17 and 289 bytes",
            TURBOSHAKE128.tally(),
        ),
        (
            "KECCAK-f[1600] of the zero state, once and twice",
            states::zero::<[u64; 25]>(&WIDE),
        ),
        (
            "64-bit lanes, counts 1, 22, 23 and 24: that many of the last rounds are done and answered",
            states::counts::<[u64; 25]>(&WIDE),
        ),
        (
            "64-bit lanes, counts 0, 25 and 2^64 - 1: none is done, 0 is answered, the lanes are as given",
            states::refusals::<[u64; 25]>(&WIDE),
        ),
        (
            "KECCAK-f[800] of the zero state, once and twice",
            states::zero::<[u32; 25]>(&NARROW),
        ),
        (
            "32-bit lanes, counts 1 and 22: that many of the last rounds are done and answered",
            states::counts::<[u32; 25]>(&NARROW),
        ),
        (
            "32-bit lanes, counts 0, 23, 24, 25 and 2^64 - 1: none is done, 0 is answered, the lanes are as given",
            states::refusals::<[u32; 25]>(&NARROW),
        ),
    ] {
        println!(rt; "{group}: {tally}")?;
        all += tally;
    }
    println!(rt; "in all: {all}")
}
