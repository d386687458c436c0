// One month sealed and opened again with Lake: the lines that a user starts from, which the README shows as they stand here.
#![tactic(auto)]

use keyak::Lake;
use table::{Refusal, StartTag, TAG_BYTES};

// Seals the readings `text` (up to 124 bytes) with the header `meta`, opens them on a second session into `out`, and answers
// the first refusal, if there is one; where there is none, `out` holds the readings.
// `room` is an array, of which the front is used: no allocator is handed in for a `Vec` of the length of `text`, and the calls take slices.
pub fn there_and_back(
    key: &[u8],
    nonce: &[u8],
    meta: &[u8],
    text: &[u8],
    out: &mut [u8],
) -> Result<(), Refusal> {
    let mut room = [0u8; 124];
    let mut tag = [0u8; TAG_BYTES];

    // The handheld starts a session for the borehole's year and seals a month. A start without a tag leaves `tag` alone.
    let sender = Lake::start(key, nonce, false, StartTag::None, &mut tag);
    sender.answer?;
    let sealed = sender.session.wrap(text, meta, false, &mut room, &mut tag);
    sealed.answer?;
    // Now `room` holds the ciphertext and `tag` its tag. The next month is sealed on sealed.session, and never again on sender.session.
    let ciphertext = &room[..text.len().min(124)];

    // The office starts one with the same key and nonce, and opens the month.
    let receiver = Lake::start(key, nonce, false, StartTag::None, &mut tag);
    receiver.answer?;
    let opened = receiver.session.unwrap(ciphertext, meta, &tag, false, out);
    // Only where this is no refusal does `out` hold the readings; the next month is opened on opened.session.
    opened.answer?;
    Ok(())
}
