// The sponge that SHA3, SHAKE and TurboSHAKE are, over the public permutation of 64-bit lanes.
ghost use Rattle.std.specs.Prelude.{◌<◌, ◌≤◌};

use permutation::permute;
use trials::lanes::{LaneBytes, State};

// A kind of hash: the bytes of a block, the rounds of the permutation, and the byte that follows the message.
#[derive(Clone, Copy)]
pub struct Kind {
    pub rate: usize,
    pub rounds: usize,
    pub suffix: u8,
    ghost within: { (0 < rate) × (rate ≤ 200) },
}

fn mix(state: &mut State, bytes: &[u8]) {
    for (to, byte) in state.iter_mut().zip(bytes) {
        *to ^= *byte;
    }
}

fn permuted(kind: Kind, state: State) -> State {
    let lanes: [u64; 25] = LaneBytes::from_bytes(state);
    permute(lanes, kind.rounds).lanes.to_bytes()
}

// The message and the byte after it in blocks, the last byte of the last block marked.
fn absorbed(kind: Kind, message: &[u8]) -> State {
    let blocks = message.chunks_exact(kind.rate);
    let rest = blocks.remainder();
    let mut state = [0; 200];
    for block in blocks {
        mix(&mut state, block);
        state = permuted(kind, state);
    }
    mix(&mut state, rest);
    state[rest.len()] ^= kind.suffix;
    state[kind.rate - 1] ^= 0x80;
    permuted(kind, state)
}

// As many bytes as `out` has, of the blocks that follow the message.
pub fn hash(kind: Kind, message: &[u8], out: &mut [u8]) {
    let mut state = absorbed(kind, message);
    for block in out.chunks_mut(kind.rate) {
        block.copy_from_slice(&state[..block.len()]);
        state = permuted(kind, state);
    }
}
