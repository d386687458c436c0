// A packet sealed and opened: its header as metadata, its readings as text, its tag behind them.
use keyak::{Session, Turn};
use lanes::Lanes;
use packets::{HEADER, Packet};
use table::{Done, Refusal, StartTag, TAG_BYTES};

// What both sides share.
#[derive(Clone, Copy)]
pub struct Secrets<'a> {
    pub key: &'a [u8],
    pub nonce: &'a [u8],
}

// One side of a year: a session under way, which each packet takes a step further.
#[derive(Clone, Copy)]
pub struct Channel<L> {
    session: Session<L>,
}

impl<L: Lanes> Channel<L> {
    // The first side produces the start tag, the second checks it.
    pub fn start(secrets: Secrets<'_>, choice: StartTag, tag: &mut [u8]) -> Result<Self, Refusal> {
        let Turn { answer, session } = Session::start(
            secrets.key,
            secrets.nonce,
            false,
            choice,
            tag,
        );
        answer.map(|_| Channel { session })
    }

    // The plain packet sealed: the same header, its readings as ciphertext, and the tag behind them.
    pub fn seal(&mut self, plain: &Packet) -> Result<Packet, Refusal> {
        let mut sealed = Packet::default();
        let (header, behind) = sealed.bytes.split_at_mut(HEADER);
        let (text, tag) = behind.split_at_mut(plain.text_length());
        header.copy_from_slice(plain.header());
        let turn = self.session.wrap(
            plain.text(),
            plain.header(),
            false,
            text,
            &mut tag[..TAG_BYTES],
        );
        self.session = turn.session;
        turn.answer.map(|_| sealed)
    }

    // A sealed packet opened with its first `head` bytes as header: 24, or any other that a careless reader would take.
    pub fn unseal(
        &mut self,
        packet: &Packet,
        head: usize,
        out: &mut [u8],
    ) -> Result<Done, Refusal> {
        let end = HEADER + packet.text_length();
        let (header, text) = packet.bytes[..end].split_at(head.min(end));
        let turn = self.session.unwrap(text, header, packet.tag(), false, out);
        self.session = turn.session;
        turn.answer
    }
}
