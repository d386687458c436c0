// The work of the calls, where no rule refuses them: a ride, and how it ends.
ghost use Rattle.std.specs.Prelude.{◌≡◌, []};
ghost use Rattle.keyak.specs.Keyak.{kind, outcome, message, allowed, allowed_start, sealed, unsealed, started};

use crate::{Session, Turn, endings, rides, tags};
use lanes::Lanes;
use table::StartTag;

// The work of wrap.
pub fn seal<L: Lanes>(
    session: Session<L>,
    text: &[u8],
    meta: &[u8],
    forget: bool,
    out: &mut [u8],
    tag: &mut [u8],
) -> Turn<L>
    requires { allowed session (message text.now meta.now forget) out.old tag.old }
    ensures { outcome result out.new tag.new ≡ sealed (kind L.L L.BYTES L.lanes L.of_lanes) session (message text.now meta.now forget) out.old }
{
    let ran = rides::of_message(session.lanes, session.at, text, meta, forget, out, false);
    tags::give_tag(ran.lanes, tag);
    endings::done(ran, true, text.len())
}

// The work of unwrap: what came out is shown only where the tag is right.
pub fn unseal<L: Lanes>(
    session: Session<L>,
    text: &[u8],
    meta: &[u8],
    tag: &[u8],
    forget: bool,
    out: &mut [u8],
) -> Turn<L>
    requires { allowed session (message text.now meta.now forget) out.old tag.now }
    ensures { outcome result out.new tag.now ≡ unsealed (kind L.L L.BYTES L.lanes L.of_lanes) session (message text.now meta.now forget) tag.now out.old }
{
    let ran = rides::of_message(session.lanes, session.at, text, meta, forget, out, true);
    let right = tags::tag_is(ran.lanes, tag);
    calls::withhold(right, text.len(), out);
    endings::judged(right, ran, text.len())
}

// The work of start, by the start tag's use.
pub fn begin<L: Lanes>(
    key: &[u8],
    nonce: &[u8],
    forget: bool,
    choice: StartTag,
    tag: &mut [u8],
) -> Turn<L>
    requires { allowed_start key.now nonce.now choice tag.old }
    ensures { outcome result [] tag.new ≡ started (kind L.L L.BYTES L.lanes L.of_lanes) key.now nonce.now forget choice tag.old }
{
    let ran = rides::of_start(key, nonce, forget, choice);
    // The start tag's use is given from outside: a closure for each of the three would stand at the caller in the place of this line or two.
    match choice {
        StartTag::None => endings::done(ran, false, 0),
        StartTag::Produced => {
            tags::give_tag(ran.lanes, tag);
            endings::done(ran, true, 0)
        }
        StartTag::Checked => {
            let right = tags::tag_is(ran.lanes, tag);
            endings::judged(right, ran, 0)
        }
    }
}
