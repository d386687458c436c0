// What is timed, at either width: the permutation, and one message wrapped or unwrapped on one session, `times` times over.
// What its loops do is the law of a repeated step.
#![tactic(auto, using(crate::proofs::Turns::turned_all, crate::proofs::Turns::turned_more))]

ghost use Rattle.std.specs.Prelude.{◌≡◌, ◌+◌, ◌*◌};
ghost use Rattle.keccak.specs.Permutes.{permuted};
ghost use Rattle.keyak.specs.Keyak.{kind};
ghost use Rattle.bench.specs.Repeat.{repeated};
ghost use Rattle.bench.specs.Lent.{lent};
ghost use Rattle.bench.specs.Over.{begun, wrapping, unwrapping};

use keyak::Session;
use lanes::Lanes;
use table::{Answer, StartTag};

// KECCAK-f: all the rounds of the width.
pub fn permuted<L: Lanes>(lanes: L, times: usize) -> L
    ensures { L.lanes result ≡ repeated (permuted L.L (12 + 2 * L.L)) times (L.lanes lanes) }
{
    let mut after = lanes;
    for _ in 0..times {
        after = permutation::permute(after, 12 + 2 * L::L).lanes;
    }
    after
}

pub fn session<L: Lanes>(key: &[u8], nonce: &[u8]) -> Session<L>
    ensures { result ≡ begun (kind L.L L.BYTES L.lanes L.of_lanes) key.now nonce.now }
{
    let mut tag = [0u8; table::TAG_BYTES];
    Session::start(key, nonce, false, StartTag::Produced, &mut tag).session
}

// Answers the permutation runs of the last wrap. Its parameters are those of C's exports: a struct of them would be made in each export, only to be
// taken apart here.
pub fn wraps<L: Lanes>(
    begun: Session<L>,
    times: usize,
    text: &[u8],
    meta: &[u8],
    out: &mut [u8],
    tag: &mut [u8],
) -> usize
    ensures { lent result out.new tag.new ≡ repeated (wrapping (kind L.L L.BYTES L.lanes L.of_lanes) begun text.now meta.now) times (lent 0 out.old tag.old) }
{
    let mut runs = 0;
    for _ in 0..times {
        runs = Answer::from(begun.wrap(text, meta, false, out, tag).answer).runs;
    }
    runs
}

// Answers the permutation runs of the last unwrap: 0 where the tag is wrong. Its parameters are those of C's exports, as above.
pub fn unwraps<L: Lanes>(
    begun: Session<L>,
    times: usize,
    text: &[u8],
    meta: &[u8],
    tag: &[u8],
    out: &mut [u8],
) -> usize
    ensures { lent result out.new tag.now ≡ repeated (unwrapping (kind L.L L.BYTES L.lanes L.of_lanes) begun text.now meta.now) times (lent 0 out.old tag.now) }
{
    let mut runs = 0;
    for _ in 0..times {
        runs = Answer::from(begun.unwrap(text, meta, tag, false, out).answer).runs;
    }
    runs
}
