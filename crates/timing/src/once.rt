// A start, a wrap and an unwrap, each answering its number; C lends the session's lanes, and finds those of the next one there.
ghost use Rattle.std.specs.Prelude.{◌≡◌, []};
ghost use Rattle.keyak.specs.Keyak.{kind};
ghost use Rattle.timing.specs.Once.{once, use_of, resumed, starting, wrapping, unwrapping};

use keyak::{Session, Turn};
use lanes::Lanes;
use table::{Phase, StartTag};

// The start tag's use as C numbers it: 0 for none, 1 for produced, any other for checked. No `TryFrom`: by the exports'
// clauses (`starting`) no number is refused.
fn use_of(choice: u8) -> StartTag
    ensures { result ≡ use_of choice }
{
    match choice {
        0 => StartTag::None,
        1 => StartTag::Produced,
        _ => StartTag::Checked,
    }
}

// The session under way on these lanes, its next text from `at` on.
fn resumed<L: Lanes>(lanes: L, at: usize) -> Session<L>
    ensures { result ≡ resumed lanes at }
{
    Session {
        lanes,
        phase: Phase::Riding,
        at,
    }
}

// Here and below C's number is made once for both instances, and the parameters are those of C's exports, in their order: with typed ones, or a struct of
// them, each of the six exports would hold the same conversion.
pub fn start<L: Lanes>(
    key: &[u8],
    nonce: &[u8],
    forget: bool,
    choice: u8,
    tag: &mut [u8],
    lanes: &mut L,
) -> u8
    ensures { once result (L.lanes lanes.new) [] tag.new ≡ starting (kind L.L L.BYTES L.lanes L.of_lanes) key.now nonce.now forget choice tag.old }
{
    let turn: Turn<L> = Session::start(key, nonce, forget, use_of(choice), tag);
    *lanes = turn.session.lanes;
    table::number_of(turn.answer)
}

// C's number and parameters, as in `start`.
pub fn wrap<L: Lanes>(
    lanes: &mut L,
    at: usize,
    text: &[u8],
    meta: &[u8],
    forget: bool,
    out: &mut [u8],
    tag: &mut [u8],
) -> u8
    ensures { once result (L.lanes lanes.new) out.new tag.new ≡ wrapping (kind L.L L.BYTES L.lanes L.of_lanes) lanes.old at text.now meta.now forget out.old tag.old }
{
    let turn = resumed(*lanes, at).wrap(text, meta, forget, out, tag);
    *lanes = turn.session.lanes;
    table::number_of(turn.answer)
}

// C's number and parameters, as in `start`.
pub fn unwrap<L: Lanes>(
    lanes: &mut L,
    at: usize,
    text: &[u8],
    meta: &[u8],
    tag: &[u8],
    forget: bool,
    out: &mut [u8],
) -> u8
    ensures { once result (L.lanes lanes.new) out.new tag.now ≡ unwrapping (kind L.L L.BYTES L.lanes L.of_lanes) lanes.old at text.now meta.now tag.now forget out.old }
{
    let turn = resumed(*lanes, at).unwrap(text, meta, tag, forget, out);
    *lanes = turn.session.lanes;
    table::number_of(turn.answer)
}
