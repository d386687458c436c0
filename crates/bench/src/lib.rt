// The permutation, and the calls of Lake and River, over and over from C, to be timed. Serves bench/run; no public call.
// Each export is its generic work at its type.
#![tactic(auto)]

mod over;

ghost use Rattle.std.specs.Prelude.{◌≡◌, get_or, replicate};
ghost use Rattle.keccak.specs.Permutes.{permuted};
ghost use Rattle.keyak.specs.Lake.{lake_kind};
ghost use Rattle.keyak.specs.River.{river_kind};
ghost use Rattle.bench.specs.Repeat.{repeated};
ghost use Rattle.bench.specs.Lent.{lent};
ghost use Rattle.bench.specs.Over.{begun, wrapping, unwrapping};

use keyak::{Lake, River};

// KECCAK-f[1600] `times` times over, on 25 lanes that hold `seed` at the start; answers lane 0.
// Two exports, here and below: C has no generics, and so a name for each type of lanes.
#[unsafe(no_mangle)]
pub extern "C" fn repeat64(times: usize, seed: u64) -> u64
    ensures { result ≡ get_or (repeated (permuted 6 24) times (replicate 25 seed)) 0 0 }
{
    over::permuted([seed; 25], times)[0]
}

// KECCAK-f[800] likewise. C's second name, since it has no generics.
#[unsafe(no_mangle)]
pub extern "C" fn repeat32(times: usize, seed: u32) -> u32
    ensures { result ≡ get_or (repeated (permuted 5 22) times (replicate 25 seed)) 0 0 }
{
    over::permuted([seed; 25], times)[0]
}

// One session of a key and a nonce, and one message wrapped on it `times` times over; answers the permutation runs of the last wrap.
// A name for each instance, since C has no generics; and a parameter for each buffer, since C has no slices that a struct could hold.
#[unsafe(no_mangle)]
pub extern "C" fn lake_wrap(
    times: usize,
    key: &[u8],
    nonce: &[u8],
    text: &[u8],
    meta: &[u8],
    out: &mut [u8],
    tag: &mut [u8],
) -> usize
    ensures { lent result out.new tag.new ≡ repeated (wrapping lake_kind (begun lake_kind key.now nonce.now) text.now meta.now) times (lent 0 out.old tag.old) }
{
    let begun: Lake = over::session(key, nonce);
    over::wraps(begun, times, text, meta, out, tag)
}

// C's second name, since it has no generics.
#[unsafe(no_mangle)]
pub extern "C" fn river_wrap(
    times: usize,
    key: &[u8],
    nonce: &[u8],
    text: &[u8],
    meta: &[u8],
    out: &mut [u8],
    tag: &mut [u8],
) -> usize
    ensures { lent result out.new tag.new ≡ repeated (wrapping river_kind (begun river_kind key.now nonce.now) text.now meta.now) times (lent 0 out.old tag.old) }
{
    let begun: River = over::session(key, nonce);
    over::wraps(begun, times, text, meta, out, tag)
}

// The same of an unwrap: 0 where the tag is wrong. A name for each instance, since C has no generics; and a parameter for each buffer, since
// C has no slices that a struct could hold.
#[unsafe(no_mangle)]
pub extern "C" fn lake_unwrap(
    times: usize,
    key: &[u8],
    nonce: &[u8],
    text: &[u8],
    meta: &[u8],
    tag: &[u8],
    out: &mut [u8],
) -> usize
    ensures { lent result out.new tag.now ≡ repeated (unwrapping lake_kind (begun lake_kind key.now nonce.now) text.now meta.now) times (lent 0 out.old tag.now) }
{
    let begun: Lake = over::session(key, nonce);
    over::unwraps(begun, times, text, meta, tag, out)
}

// C's second name, since it has no generics.
#[unsafe(no_mangle)]
pub extern "C" fn river_unwrap(
    times: usize,
    key: &[u8],
    nonce: &[u8],
    text: &[u8],
    meta: &[u8],
    tag: &[u8],
    out: &mut [u8],
) -> usize
    ensures { lent result out.new tag.now ≡ repeated (unwrapping river_kind (begun river_kind key.now nonce.now) text.now meta.now) times (lent 0 out.old tag.now) }
{
    let begun: River = over::session(key, nonce);
    over::unwraps(begun, times, text, meta, tag, out)
}
