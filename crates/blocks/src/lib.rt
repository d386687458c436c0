// The Piston on lanes of either width: one block of a message, and one of metadata alone.
// Serves the Engine's code above it; here are lanes and slices. No public call.
#![tactic(auto)]

ghost use Rattle.std.specs.Prelude.{◌≡◌, [], ◌++◌, ◌+◌, ◌-◌, ◌*◌, ◌%◌, ◌≤◌, length, take, drop};
ghost use Rattle.keccak.specs.State.{bytes, keccak_bytes};
ghost use Rattle.lanes.specs.Width.{instance};
ghost use Rattle.motorist.specs.Instance.{full_rate};
ghost use Rattle.motorist.specs.Piston.{xors, mask, plain, block, absorb};
ghost use Rattle.piston.specs.Placed.{placed};
ghost use Rattle.plan.specs.Cut.{Fits, stepped};

use lanes::Lanes;
use plan::Cut;
use rates::{ByteCount, Rates};

// A block's text: what is under the key stream goes to out, and the plaintext into the state.
fn crypt<L: Lanes>(lanes: L, at: ByteCount, text: &[u8], out: &mut [u8], decrypt: bool) -> L
    requires { (at.0 % L.BYTES ≡ 0) × (at.0 + length text.now ≤ L.BYTES * 25) × (length out.old ≡ length text.now) }
    ensures result_value { bytes L.BYTES (L.lanes result) ≡ xors (bytes L.BYTES (L.lanes lanes)) (placed at.0 (plain decrypt (bytes L.BYTES (L.lanes lanes)) at.0 text.now)) }
    ensures out_after { out.new ≡ mask (bytes L.BYTES (L.lanes lanes)) at.0 text.now }
{
    piston::stream(lanes, at, text, out);
    let mut state = lanes;
    let plain: &[u8] = if decrypt { out } else { text };
    piston::xor_in(&mut state, at, plain);
    state
}

// What ends every block: metadata, the four offset bytes at the full rate, and the permutation.
fn finish<L: Lanes>(lanes: L, from: ByteCount, meta: &[u8], offsets: [u8; 4]) -> L
    requires { (from.0 % L.BYTES ≡ 0) × (from.0 + length meta.now ≤ L.BYTES * 25) }
    ensures { bytes L.BYTES (L.lanes result) ≡ keccak_bytes L.L 12 (xors (xors (bytes L.BYTES (L.lanes lanes)) (placed from.0 meta.now)) (placed (full_rate (instance L.L)) offsets)) }
{
    let mut state = lanes;
    piston::xor_in(&mut state, from, meta);
    piston::xor_in(&mut state, Rates::of::<L>().full, &offsets);
    permutation::permute12(state)
}

// One block of the message: the stretch of the text that the cut names goes into the same stretch of out.
pub fn block<L: Lanes>(
    lanes: L,
    cut: Cut,
    text: &[u8],
    meta: &[u8],
    eom: u8,
    out: &mut [u8],
    decrypt: bool,
) -> L
    requires { Fits (instance L.L) L.BYTES (length text.now) (length meta.now) (length out.old) cut }
    ensures result_value { bytes L.BYTES (L.lanes result) ≡ stepped (instance L.L) (keccak_bytes L.L 12) decrypt (bytes L.BYTES (L.lanes lanes)) cut.at.0 (take (cut.textend.0 - cut.text.0) (drop cut.text.0 text.now)) cut.from.0 (take (cut.metaend.0 - cut.meta.0) (drop cut.meta.0 meta.now)) eom }
    ensures out_after { out.new ≡ take cut.text.0 out.old ++ (mask (bytes L.BYTES (L.lanes lanes)) cut.at.0 (take (cut.textend.0 - cut.text.0) (drop cut.text.0 text.now)) ++ drop (cut.textend.0 - cut.text.0) (drop cut.text.0 out.old)) }
{
    let texted = crypt(
        lanes,
        cut.at,
        &text[cut.text.0..cut.textend.0],
        &mut out[cut.text.0..cut.textend.0],
        decrypt,
    );
    finish(
        texted,
        cut.from,
        &meta[cut.meta.0..cut.metaend.0],
        cut.offsets(eom),
    )
}

// One block of metadata alone.
pub fn inject<L: Lanes>(lanes: L, meta: &[u8], eom: u8) -> L
    requires { length meta.now ≤ full_rate (instance L.L) }
    ensures { bytes L.BYTES (L.lanes result) ≡ absorb (keccak_bytes L.L 12) (bytes L.BYTES (L.lanes lanes)) (block (instance L.L) 0 [] 0 meta.now eom) }
{
    let end = ByteCount::of(meta).as_byte();
    finish(lanes, ByteCount(0), meta, [eom, 0, 0, end])
}
