// How the calls end: the record that is handed on, and the answer beside it. Each contract holds of whatever the lent buffers then hold.
ghost use Rattle.std.specs.Prelude.{◌≡◌};
ghost use Rattle.keccak.specs.State.{bytes};
ghost use Rattle.motorist.specs.Piston.{Bytes};
ghost use Rattle.keyak.specs.Keyak.{kind, failed, riding, outcome, refused_turn, onward, judged};

use crate::{Session, Turn};
use engine::Ran;
use lanes::Lanes;
use table::{Phase, Refusal};

// The record after a wrong tag.
fn failed<L: Lanes>() -> Session<L>
    ensures { result ≡ failed (kind L.L L.BYTES L.lanes L.of_lanes) }
{
    let lanes = L::zero();
    lanes.known();
    Session {
        lanes,
        phase: Phase::Failed,
        at: 0,
    }
}

// The record of a session under way, its next text from `at` on.
fn riding<L: Lanes>(lanes: L, at: usize) -> Session<L>
    ensures { result ≡ riding (kind L.L L.BYTES L.lanes L.of_lanes) (bytes L.BYTES (L.lanes lanes)) at }
{
    lanes.known();
    Session {
        lanes,
        phase: Phase::Riding,
        at,
    }
}

// A refusal, and the session that is given here.
pub fn refused<L: Lanes>(why: Refusal, session: Session<L>) -> Turn<L>
    ensures { result ≡ refused_turn why session }
{
    Turn {
        answer: Err(why),
        session,
    }
}

// The session goes on after a ride, a tag taken or not.
pub fn done<L: Lanes>(ran: Ran<L>, tagged: bool, written: usize) -> Turn<L>
    ensures { (out g : Bytes) → outcome result out g ≡ onward (kind L.L L.BYTES L.lanes L.of_lanes) tagged ran.lanes written ran.runs out g }
{
    Turn {
        answer: calls::done_answer(written, ran.runs),
        session: riding(ran.lanes, calls::text_start(tagged)),
    }
}

// By the tag that came: the session goes on, or is closed for good.
pub fn judged<L: Lanes>(right: bool, ran: Ran<L>, written: usize) -> Turn<L>
    ensures { (out g : Bytes) → outcome result out g ≡ judged (kind L.L L.BYTES L.lanes L.of_lanes) right ran.lanes written ran.runs out g }
{
    // Whether a tag is right is the one thing that a secret may tell (docs/SECURITY.md): a flag here, so that this is seen; a closure would hide it.
    if right {
        return done(ran, true, written);
    }
    refused(Refusal::TagDiffers, failed())
}
