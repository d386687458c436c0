// The steps of a session: the words of a line are read, the call is made, and all that it answers and leaves is compared.
use crate::run::Call;
use decimal::LARGEST;
use keyak::{Session, Turn};
use lanes::Lanes;
use permutation::permute;
use table::{Answer, Phase, StartTag};
use trials::lanes::LaneBytes;
use vectors::guard::{Guarded, OutputArray, TagArray};
use vectors::words::Words;

// The most bytes of a key, a nonce, a text or metadata that a line may give.
const LONGEST: usize = 65536;

// The phases, and the uses of the start tag, by their numbers in a line: this program's own reading too.
const PHASES: [Phase; 3] = [Phase::Unstarted, Phase::Riding, Phase::Failed];

const USES: [StartTag; 3] = [StartTag::None, StartTag::Produced, StartTag::Checked];

// LANES PHASE TEXTSTART: no call; the record in hand is this one. No lanes leave those in hand.
pub fn hold<L: Lanes + LaneBytes>(words: &mut Words<'_>, session: Session<L>) -> Session<L> {
    let mut state = session.lanes.to_bytes();
    let length = words.given(&mut state).len();
    words.expect(length == 0 || length == 25 * L::WIDTH);
    Session {
        lanes: L::from_bytes(state),
        phase: PHASES[words.number(2)],
        at: words.number(LARGEST),
    }
}

// RECORD: the lanes, PHASE and TEXTSTART that a call left.
fn left<L: Lanes + LaneBytes>(words: &mut Words<'_>, session: Session<L>) -> Session<L> {
    words.buffer(&session.lanes.to_bytes()[..25 * L::WIDTH]);
    let phase = PHASES.iter().position(|phase| *phase == session.phase);
    words.count(phase.unwrap_or(PHASES.len()));
    words.count(session.at);
    session
}

// KEY NONCE USE FORGET TAG NUMBER WRITTEN RUNS TAGAFTER RECORD
fn start<L: Lanes + LaneBytes>(words: &mut Words<'_>) -> Session<L> {
    let mut key = [0; LONGEST];
    let mut nonce = [0; LONGEST];
    let mut array: TagArray = [0; 96];
    let key = words.given(&mut key);
    let nonce = words.given(&mut nonce);
    let choice = USES[words.number(2)];
    let forget = words.choice();
    let tag = Guarded::read(words, &mut array);
    let turn = Session::start(key, nonce, forget, choice, tag.lent);
    words.expect(tag.is_kept());
    words.answer(Answer::from(turn.answer));
    words.buffer(tag.lent);
    left(words, turn.session)
}

// TEXT METADATA FORGET OUTPUT TAG NUMBER WRITTEN RUNS OUTPUTAFTER TAGAFTER RECORD
fn message<L: Lanes + LaneBytes, F: FnOnce(&[u8], &[u8], bool, &mut [u8], &mut [u8]) -> Turn<L>>(
    words: &mut Words<'_>,
    call: F,
) -> Session<L>
    requires { F.IsAlwaysCallable call }
{
    let mut text = [0; LONGEST];
    let mut meta = [0; LONGEST];
    let mut out_array: OutputArray = [0; 65664];
    let mut tag_array: TagArray = [0; 96];
    let text = words.given(&mut text);
    let meta = words.given(&mut meta);
    let forget = words.choice();
    let out = Guarded::read(words, &mut out_array);
    let tag = Guarded::read(words, &mut tag_array);
    let turn = call(text, meta, forget, out.lent, tag.lent);
    words.expect(out.is_kept() && tag.is_kept());
    words.answer(Answer::from(turn.answer));
    words.buffer(out.lent);
    words.buffer(tag.lent);
    left(words, turn.session)
}

// ROUNDS DONE RECORD: the permutation on the lanes in hand; phase and text start stay.
fn permuted<L: Lanes + LaneBytes>(words: &mut Words<'_>, session: Session<L>) -> Session<L> {
    let rounds = words.number(LARGEST);
    let after = permute(session.lanes, rounds);
    words.count(after.rounds);
    left(
        words,
        Session {
            lanes: after.lanes,
            ..session
        },
    )
}

// A match on the name of the call, since its tally goes by that name too (`Calls::note`); a closure in place of a name would have to be generic
// over the lanes, which none is.
pub fn call<L: Lanes + LaneBytes>(
    words: &mut Words<'_>,
    call: Call,
    session: Session<L>,
) -> Session<L> {
    match call {
        Call::Start => start(words),
        Call::Wrap => message(words, |text, meta, forget, out, tag| {
            session.wrap(text, meta, forget, out, tag)
        }),
        Call::Unwrap => message(words, |text, meta, forget, out, tag| {
            session.unwrap(text, meta, tag, forget, out)
        }),
        Call::Permute => permuted(words, session),
    }
}
