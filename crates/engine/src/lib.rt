// The Engine and the Motorist on lanes of either width, for one Piston: a group of blocks, a knot, a whole message and a whole start.
// Serves the calls, which know the session; here are lanes, a place where text starts and slices. No public call.
#![tactic(auto)]

ghost use Rattle.std.specs.Prelude.{◌≡◌, [], ◌∷◌, ◌+◌, ◌-◌, ◌%◌, ◌≤◌, ◌<◌, length, take, drop};
ghost use Rattle.keccak.specs.State.{bytes, keccak_bytes};
ghost use Rattle.lanes.specs.Width.{instance};
ghost use Rattle.motorist.specs.Instance.{text_rate, full_rate, pack_length, chain_length};
ghost use Rattle.motorist.specs.Piston.{block, absorb};
ghost use Rattle.motorist.specs.Engine.{group};
ghost use Rattle.motorist.specs.Rode.{Rode};
ghost use Rattle.motorist.specs.Motorist.{message, start};
ghost use Rattle.plan.specs.Start.{start_bytes, start_group};

use lanes::Lanes;
use plan::Opening;
use rates::{ByteCount, Rates};

// The most bytes that a state has: room for one block of a start.
const STATE_BYTES: usize = 200;

// The lanes after some blocks, and how many they were. The lanes are secret: nothing derived prints or compares them.
#[derive(Clone, Copy)]
pub struct Ran<L> {
    pub lanes: L,
    pub runs: usize,
}

// A group: all of the text, from byte `at` of its first block on, with metadata beside it, then the metadata that is left.
fn group<L: Lanes>(
    lanes: L,
    at: ByteCount,
    text: &[u8],
    meta: &[u8],
    eom: u8,
    out: &mut [u8],
    decrypt: bool,
) -> Ran<L>
    requires at_bound { (at.0 < text_rate (instance L.L)) × (at.0 % L.BYTES ≡ 0) × (length text.now ≤ length out.old) }
    requires text_len_bound { (length text.now ≤ 65535) × (length meta.now ≤ 65535) }
    ensures rode { Rode (group (instance L.L) (keccak_bytes L.L 12) decrypt (bytes L.BYTES (L.lanes lanes) ∷ []) at.0 text.now meta.now (eom ∷ [])) (length text.now) out.old (bytes L.BYTES (L.lanes result.lanes)) out.new result.runs }
    ensures runs_bound { result.runs ≤ 131071 }
{
    let mut state = lanes;
    let mut runs = 0;
    let whole = plan::Group {
        rates: Rates::of::<L>(),
        text: ByteCount::of(text),
        meta: ByteCount::of(meta),
    };
    let mut cut = whole.first(at);
    // No `for`: how many blocks there are is known only when the last is cut; `iter::successors` over cuts would have to be told again, in the clauses of its closure,
    // what `first`, `more` and `next` ensure.
    let mut going = true;
    while going {
        let more = whole.more(cut);
        let mark = plan::eom_at(more, eom);
        state = blocks::block(state, cut, text, meta, mark, out, decrypt);
        runs += 1;
        cut = whole.next(cut);
        going = more;
    }
    Ran { lanes: state, runs }
}

// A knot behind a group: the chaining value goes in as metadata of one new block.
fn knot<L: Lanes>(chained: Ran<L>, eom: u8) -> Ran<L>
    requires { chained.runs ≤ 131071 }
    ensures lanes_value { bytes L.BYTES (L.lanes result.lanes) ≡ absorb (keccak_bytes L.L 12) (bytes L.BYTES (L.lanes chained.lanes)) (block (instance L.L) 0 [] 0 (take (chain_length (instance L.L)) (bytes L.BYTES (L.lanes chained.lanes))) eom) }
    ensures runs_value { result.runs ≡ chained.runs + 1 }
{
    let mut value = [0u8; rates::CHAIN_BYTES.0];
    piston::squeeze(chained.lanes, &mut value);
    Ran {
        lanes: blocks::inject(chained.lanes, &value, eom),
        runs: chained.runs + 1,
    }
}

// A whole message. Where its text starts is bounded by the lanes' own rate: a type for such a place would be generic over lanes that it does not hold. Text, metadata and
// forgetting come one by one: a struct of them would be made at each of the calls, and taken apart here.
pub fn message<L: Lanes>(
    lanes: L,
    at: ByteCount,
    text: &[u8],
    meta: &[u8],
    forget: bool,
    out: &mut [u8],
    decrypt: bool,
) -> Ran<L>
    requires at_bound { (at.0 < text_rate (instance L.L)) × (at.0 % L.BYTES ≡ 0) × (length text.now ≤ length out.old) }
    requires text_len_bound { (length text.now ≤ 65535) × (length meta.now ≤ 65535) }
    ensures { Rode (message (instance L.L) (keccak_bytes L.L 12) decrypt (bytes L.BYTES (L.lanes lanes) ∷ []) at.0 (record { text = text.entry.now; meta = meta.now; forgets = forget })) (length text.entry.now) out.old (bytes L.BYTES (L.lanes result.lanes)) out.new result.runs }
{
    let rates = Rates::of::<L>();
    let eom = plan::eom_tag(rates);
    // Forgetting is a choice of the caller from outside. What it picks is a knot more, and the EOM of the group before it: a closure would hide the two lines.
    if forget {
        let chained = group(lanes, at, text, meta, rates.chain.as_byte(), out, decrypt);
        return knot(chained, eom);
    }
    group(lanes, at, text, meta, eom, out, decrypt)
}

// One block of a start, by way of a lent part of its length: what it injects from byte `done` on.
fn start_block_in<L: Lanes>(
    lanes: L,
    opening: Opening<'_>,
    done: ByteCount,
    part: &mut [u8],
    eom: u8,
) -> L
    requires { (length part.old ≤ full_rate (instance L.L)) × (done.0 + length part.old ≤ length (start_bytes opening.pack.0 opening.key.now opening.nonce.now)) }
    ensures { bytes L.BYTES (L.lanes result) ≡ absorb (keccak_bytes L.L 12) (bytes L.BYTES (L.lanes lanes)) (block (instance L.L) 0 [] 0 (take (length part.old) (drop done.0 (start_bytes opening.entry.pack.0 opening.entry.key.now opening.entry.nonce.now))) eom) }
{
    opening.part(done, part);
    blocks::inject(lanes, part, eom)
}

// A block of n bytes of a start, through a buffer of its own.
fn start_block<L: Lanes>(
    lanes: L,
    opening: Opening<'_>,
    done: ByteCount,
    n: ByteCount,
    eom: u8,
) -> L
    requires { (n.0 ≤ full_rate (instance L.L)) × (done.0 + n.0 ≤ length (start_bytes opening.pack.0 opening.key.now opening.nonce.now)) }
    ensures { bytes L.BYTES (L.lanes result) ≡ absorb (keccak_bytes L.L 12) (bytes L.BYTES (L.lanes lanes)) (block (instance L.L) 0 [] 0 (take n.0 (drop done.0 (start_bytes opening.entry.pack.0 opening.entry.key.now opening.entry.nonce.now))) eom) }
{
    // No heap: a block's worth at a time goes through a buffer of fixed size.
    let mut buffer = [0u8; STATE_BYTES];
    start_block_in(lanes, opening, done, &mut buffer[..n.0], eom)
}

// What is left of a start's bytes. It stays a function of its own in the machine code: where it is not, the compiler counts the blocks of a start ahead, by a
// multiplication, and docs/SECURITY.md says that there is none.
#[inline(never)]
fn left(total: ByteCount, done: ByteCount) -> ByteCount
    requires { done.0 ≤ total.0 }
    ensures { result.0 ≡ total.0 - done.0 }
{
    total - done
}

// The blocks of a start, without its knot: key pack, nonce, number and index of the Piston, a block's worth at a time.
fn start_group<L: Lanes>(opening: Opening<'_>, eom: u8) -> Ran<L>
    requires { opening.pack.0 ≡ pack_length (instance L.L) }
    ensures lanes_value { bytes L.BYTES (L.lanes result.lanes) ∷ [] ≡ (start_group (instance L.L) (keccak_bytes L.L 12) opening.entry.key.now opening.entry.nonce.now eom).states }
    ensures runs_value { (result.runs ≡ length (start_group (instance L.L) (keccak_bytes L.L 12) opening.entry.key.now opening.entry.nonce.now eom).blocks) × (result.runs ≤ 2000) }
{
    let full = Rates::of::<L>().full;
    let total = opening.length();
    let mut state = L::zero();
    let mut done = ByteCount(0);
    let mut runs = 0;
    // No `for` over steps of `full`: it would have to count the whole blocks first, since the last one, full or not, ends the group and is not the loop's.
    while full < left(total, done) {
        state = start_block(state, opening, done, full, 0);
        done = done + full;
        runs += 1;
    }
    Ran {
        lanes: start_block(state, opening, done, left(total, done), eom),
        runs: runs + 1,
    }
}

// A whole start.
pub fn start<L: Lanes>(key: &[u8], nonce: &[u8], forget: bool, tagged: bool) -> Ran<L>
    requires { (length key.now ≤ 32) × (length nonce.now ≤ 1024) }
    ensures lanes_value { bytes L.BYTES (L.lanes result.lanes) ∷ [] ≡ (start (instance L.L) (keccak_bytes L.L 12) (record { key = key.entry.now; nonce = nonce.now; tagged = tagged; forgets = forget })).states }
    ensures runs_value { result.runs ≡ length (start (instance L.L) (keccak_bytes L.L 12) (record { key = key.entry.now; nonce = nonce.now; tagged = tagged; forgets = forget })).blocks }
{
    let rates = Rates::of::<L>();
    let opening = Opening {
        pack: rates.pack,
        key,
        nonce,
    };
    let eom = plan::eom_of(rates, tagged);
    // As in `message`: a knot more, and the EOM of the group before it.
    if forget {
        let chained = start_group(opening, rates.chain.as_byte());
        return knot(chained, eom);
    }
    start_group(opening, eom)
}
