// KECCAK-p[25 · 2^l, n] on 25 lanes of either width. `permute` is the public call; `permute12` serves the crates above.
#![tactic(auto)]

ghost use Rattle.std.specs.Prelude.{◌≡◌, ◌+◌, ◌*◌, ◌%◌, ◌^◌, ◌≤◌};
ghost use Rattle.keccak.specs.Lanes.{round_l, rounds_l};
ghost use Rattle.keccak.specs.State.{bytes, keccak_bytes};
ghost use Rattle.keccak.specs.Permutes.{Permutes};

use keccak::round_constants;
use lanes::Lanes;

// What the call answers: the rounds done, and the lanes, which may be secret. 0 rounds are answered for a count that is not done, and no `None`, since the clause of
// `permute` (`Permutes`) says so.
#[derive(Clone, Copy)]
pub struct Permuted<L> {
    pub rounds: usize,
    pub lanes: L,
}

// The last `rounds` rounds of KECCAK-f: 1 to 24 at 64 bits a lane, 1 to 22 at 32. Any other count does none, answers 0 and returns the lanes as given.
// Not `permute12` with a count: that one's clause speaks of the bytes of a state.
pub fn permute<L: Lanes>(lanes: L, rounds: usize) -> Permuted<L>
    ensures { Permutes L.L rounds (L.lanes lanes) result.rounds (L.lanes result.lanes) }
{
    lanes.known();
    if rounds > 12 + 2 * L::L {
        return Permuted { rounds: 0, lanes };
    }
    let lanes = run(lanes, rounds);
    Permuted { rounds, lanes }
}

// Twelve rounds, which every instance of Keyak takes, as what they do to the bytes of the state: another clause than that of `permute`, and no count to refuse.
pub fn permute12<L: Lanes>(lanes: L) -> L
    ensures { bytes L.BYTES (L.lanes result) ≡ keccak_bytes L.L 12 (bytes L.BYTES (L.lanes lanes)) }
{
    lanes.known();
    run(lanes, 12)
}

// The last rounds, each with its constant.
fn run<L: Lanes>(lanes: L, rounds: usize) -> L
    requires { rounds ≤ 12 + 2 * L.L }
    ensures { L.lanes result ≡ rounds_l L.L rounds (L.lanes lanes) }
{
    let constants = round_constants();
    let all = 12 + 2 * L::L;
    let mut after = lanes;
    for k in &constants[all - rounds..all] {
        after = round(after, *k);
    }
    after
}

fn round<L: Lanes>(lanes: L, k: u64) -> L
    ensures { L.lanes result ≡ round_l (2 ^ L.L) (k % 2 ^ 2 ^ L.L) (L.lanes lanes) }
{
    lanes.theta().rho_pi().chi().iota(k)
}
