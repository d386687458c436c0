// A session of Keyak v2 with one Piston, over lanes of either width: Lake is over KECCAK-p[1600, 12], River over KECCAK-p[800, 12]. The public calls start, wrap and
// unwrap, and the record that they hand on. Here a call is refused or not. Its work is in `work`: a ride of `rides`, the tag by `tags`, and one of the `endings`.
#![tactic(auto)]

mod endings;
mod rides;
mod tags;
mod work;

ghost use Rattle.std.specs.Prelude.{◌≡◌, []};
ghost use Rattle.table.specs.Answers.{number_of};
ghost use Rattle.table.specs.Refusals.{first};
ghost use Rattle.calls.specs.Outcome.{message_rules};
ghost use Rattle.keyak.specs.Keyak.{kind, unstarted, outcome, message, wrap_of, unwrap_of, start_of};

use lanes::Lanes;
use table::{Done, Phase, Refusal, StartTag};

// The record of a session: 25 lanes, how far it has come, and where its next text starts. Nothing derived prints or compares it: the lanes are secret.
#[derive(Clone, Copy)]
pub struct Session<L> {
    pub lanes: L,
    pub phase: Phase,
    pub at: usize,
}

// What a call gives back: the answer, and the session for the next call.
#[derive(Clone, Copy)]
pub struct Turn<L> {
    pub answer: Result<Done, Refusal>,
    pub session: Session<L>,
}

// The two types that have a name, which README and docs/ call by it: all else here is of either.
pub type Lake = Session<[u64; 25]>;

// The other of the two.
pub type River = Session<[u32; 25]>;

impl<L: Lanes> Session<L> {
    // The record before any start; the other two ways to make one are in `endings`.
    pub fn unstarted() -> Session<L>
        ensures { result ≡ unstarted (kind L.L L.BYTES L.lanes L.of_lanes) }
    {
        let lanes = L::zero();
        lanes.known();
        Session {
            lanes,
            phase: Phase::Unstarted,
            at: 0,
        }
    }

    // Starts a session from a key and a nonce; the start tag is not asked for, goes into `tag`, or must be the one in `tag`.
    // Key, nonce, forgetting and choice one by one, as README's call and the clause (`start_of`) have them: a struct would be one more thing to fill in.
    pub fn start(
        key: &[u8],
        nonce: &[u8],
        forget: bool,
        choice: StartTag,
        tag: &mut [u8],
    ) -> Turn<L>
        ensures { outcome result [] tag.new ≡ start_of (kind L.L L.BYTES L.lanes L.of_lanes) key.now nonce.now forget choice tag.old }
    {
        match calls::start_refusal(key.len(), nonce.len(), choice, tag.len()) {
            Ok(()) => work::begin(key, nonce, forget, choice, tag),
            Err(why) => endings::refused(why, Session::unstarted()),
        }
    }

    // Seals `text` with `meta`: the ciphertext goes to the front of `out`, the tag into `tag`.
    // Text, metadata, forgetting and output one by one, as README's calls have them: a struct would be one more thing to fill in. They go on so to where they part, in
    // `engine::message`.
    pub fn wrap(
        self,
        text: &[u8],
        meta: &[u8],
        forget: bool,
        out: &mut [u8],
        tag: &mut [u8],
    ) -> Turn<L>
        ensures { outcome result out.new tag.new ≡ wrap_of (kind L.L L.BYTES L.lanes L.of_lanes) self (message text.now meta.now forget) out.old tag.old }
    {
        match self.refusal(text.len(), meta.len(), out.len(), tag.len()) {
            Ok(()) => work::seal(self, text, meta, forget, out, tag),
            Err(why) => endings::refused(why, self),
        }
    }

    // Opens the ciphertext `text` with `meta`: the plaintext goes to the front of `out` if `tag` is right, and else zeros.
    pub fn unwrap(
        self,
        text: &[u8],
        meta: &[u8],
        tag: &[u8],
        forget: bool,
        out: &mut [u8],
    ) -> Turn<L>
        ensures { outcome result out.new tag.now ≡ unwrap_of (kind L.L L.BYTES L.lanes L.of_lanes) self (message text.now meta.now forget) tag.now out.old }
    {
        match self.refusal(text.len(), meta.len(), out.len(), tag.len()) {
            Ok(()) => work::unseal(self, text, meta, tag, forget, out),
            Err(why) => endings::refused(why, self),
        }
    }

    // Why a message is refused on this record, by the lengths of text, metadata, output and tag.
    fn refusal(self, text: usize, meta: usize, out: usize, tag: usize) -> Result<(), Refusal>
        ensures { number_of result ≡ first (message_rules self.phase self.at text meta out tag) }
    {
        calls::message_refusal(self.phase, self.at, text, meta, out, tag)
    }
}
