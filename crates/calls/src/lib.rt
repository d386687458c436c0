// What start, wrap and unwrap do, at any instance: definitions and promises in specs/, the proofs of the promises in proofs/.
// In code here is what no instance changes: which refusal is given, the answer, where the next text starts, what a wrong tag withholds.
// Serves `keyak`; no public call.
#![tactic(auto)]

ghost use Rattle.std.specs.Prelude.{◌≡◌, ◌≤◌, length};
ghost use Rattle.table.specs.Numbers.{done};
ghost use Rattle.table.specs.Answers.{number_of, answer_of};
ghost use Rattle.table.specs.Refusals.{first};
ghost use Rattle.motorist.specs.Motorist.{taken};
ghost use Rattle.calls.specs.Outcome.{answer, message_rules, start_rules};
ghost use Rattle.calls.specs.Ends.{withheld};

use table::{Done, Phase, Refusal, StartTag, refuse_if};

// Why a message is refused: its session's phase and text start, and the lengths of text, metadata, output and tag.
pub fn message_refusal(
    phase: Phase,
    at: usize,
    text: usize,
    meta: usize,
    out: usize,
    tag: usize,
) -> Result<(), Refusal>
    ensures { number_of result ≡ first (message_rules phase at text meta out tag) }
{
    let live = phase.is_riding() && (at == 0 || at == table::TAG_BYTES);
    refuse_if(!live, Refusal::NotStarted)?;
    refuse_if(65535 < text, Refusal::TextTooLong)?;
    refuse_if(65535 < meta, Refusal::MetadataTooLong)?;
    refuse_if(out < text, Refusal::OutputShort)?;
    refuse_if(tag != table::TAG_BYTES, Refusal::TagLength)
}

// Why a start is refused: the lengths of key, nonce and tag buffer, and the tag's use.
pub fn start_refusal(key: usize, nonce: usize, choice: StartTag, tag: usize) -> Result<(), Refusal>
    ensures { number_of result ≡ first (start_rules key nonce choice tag) }
{
    refuse_if(!(16..=32).contains(&key), Refusal::KeyLength)?;
    refuse_if(1024 < nonce, Refusal::NonceLength)?;
    refuse_if(
        choice.is_asked() && tag != table::TAG_BYTES,
        Refusal::TagLength,
    )
}

// The answer of a call that was done.
pub fn done_answer(written: usize, runs: usize) -> Result<Done, Refusal>
    ensures { answer_of result ≡ answer done written runs }
{
    Ok(Done { written, runs })
}

// Where the next text starts: behind the tag that was taken, or at 0 where none was.
pub fn text_start(tagged: bool) -> usize
    ensures { result ≡ taken tagged }
{
    if tagged { table::TAG_BYTES } else { 0 }
}

// Where the tag is not right, the n bytes of text that came out are cleared. All of the lent output with n, and not its front: the clause (`withheld`) speaks of the
// rest too, which `UnwrapLeaves` keeps.
pub fn withhold(right: bool, n: usize, out: &mut [u8])
    requires { n ≤ length out.old }
    ensures { out.new ≡ withheld right n out.old }
{
    if right {
        return;
    }
    out[..n].fill(0);
}
