// The words of a line of the vector layout (docs/VECTORS.md): words with a space between two, numbers, and bytes in five words.
// What is no such word is read all the same, so that a call can be made with it, and is remembered: the line then differs.
ghost use Rattle.std.specs.Prelude.{◌≡◌, ◌≤◌, ◌&&◌, length, is_none, option_map, true, false, MatchOption};
ghost use Rattle.vectors.specs.Line.{behind_space};

use crate::bytes::{Bytes, are_digits};
use decimal::LARGEST;
use table::Answer;
use trials::pattern::{Pattern, low};

// The words that are still to be read, none past the last, and whether all before were sound and as expected. A flag and no Result:
// a line is read to its end and its call made, also where a word was not as it should be.
#[derive(Clone, Copy)]
pub struct Words<'a> {
    rest: Option<&'a [u8]>,
    same: bool,
}

// Each method says for itself that what was unsound stays so: it is said of before and after, which no invariant of the type can.
impl<'a> Words<'a> {
    // Those past the first word of a line.
    pub fn past_first(line: &'a [u8]) -> Self
        ensures rest { option_map (λ rest. rest.now) result.rest ≡ behind_space line.now }
        ensures sound { result.same ≡ true }
    {
        let mut words = Words {
            rest: Some(line),
            same: true,
        };
        words.word();
        words
    }

    // The next word; past the last it is empty.
    fn word(&mut self) -> &'a [u8]
        ensures rest { MatchOption self.old.rest (self.new.rest ≡ None) (λ line. option_map (λ rest. rest.now) self.new.rest ≡ behind_space line.now) }
        ensures same { self.new.same ≡ self.old.same }
    {
        let Some(rest) = self.rest else {
            return &[];
        };
        let mut parts = rest.splitn(2, |c| *c == b' ');
        let word = parts.next().unwrap_or(&[]);
        self.rest = parts.next();
        word
    }

    // One thing more that has to hold.
    pub fn expect(&mut self, holds: bool)
        ensures { self.new ≡ record { rest = self.old.rest; same = self.old.same && holds } }
    {
        self.same = self.same && holds;
    }

    // Whether all was well, and the line ends with the words that were read.
    pub fn ends(&self) -> bool
        ensures { result ≡ (self.now.same && is_none self.now.rest) }
    {
        self.same && self.rest.is_none()
    }

    // A number of at most `most`; what is more, or no number, is not sound.
    pub fn number(&mut self, most: usize) -> usize
        ensures bounded { result ≤ most }
        ensures unsound_stays { self.old.same ≡ false → self.new.same ≡ false }
    {
        let word = self.word();
        let number = decimal::read(word, most);
        self.expect(number.is_ok());
        number.unwrap_or_else(|_| decimal::nearest(word, most))
    }

    // A number that is a choice: 0 or 1.
    pub fn choice(&mut self) -> bool
        ensures { self.old.same ≡ false → self.new.same ≡ false }
    {
        self.number(1) == 1
    }

    // The words A B: byte i is A * i + B + 29 * (i / 256), modulo 256; where A is 0, every byte is B.
    #[inline(always)]
    fn pattern(&mut self) -> Pattern
        ensures period { result.period ≡ 256 }
        ensures unsound_stays { self.old.same ≡ false → self.new.same ≡ false }
    {
        let [step, first] = [self.number(255), self.number(255)].map(low);
        Pattern {
            first,
            step,
            period: 256,
            lift: 29,
        }
    }

    // The word HEX, of at most `most` bytes. Sound are a '-', or pairs of digits alone, one or more.
    fn pairs(&mut self, most: usize) -> &'a [[u8; 2]]
        ensures { self.old.same ≡ false → self.new.same ≡ false }
    {
        let hex = self.word();
        if hex == b"-".as_slice() {
            return &[];
        }
        let (all, odd) = hex.as_chunks::<2>();
        let pairs = &all[..all.len().min(most)];
        self.expect(odd.is_empty() && !pairs.is_empty() && pairs.len() == all.len());
        self.expect(are_digits(hex));
        pairs
    }

    // The words LENGTH A B PLACE HEX, of at most `most` bytes. Inlined, so that its callers know the period (`Pattern`).
    #[inline(always)]
    fn bytes(&mut self, most: usize) -> Bytes<'a>
        ensures bounded { result.length ≤ most }
        ensures unsound_stays { self.old.same ≡ false → self.new.same ≡ false }
    {
        let length = self.number(most);
        let pattern = self.pattern();
        let place = self.number(length);
        let pairs = self.pairs(length - place);
        Bytes {
            length,
            pattern,
            place,
            pairs,
        }
    }

    // The bytes of five words, which go to the front of `room`.
    pub fn given<'b>(&mut self, room: &'b mut [u8]) -> &'b mut [u8]
        ensures bounded { length result.now ≤ length room.old }
        ensures unsound_stays { self.old.same ≡ false → self.new.same ≡ false }
    {
        let told = self.bytes(room.len());
        let into = &mut room[..told.length];
        told.lay(into);
        into
    }

    // A number that must be told.
    pub fn told(&mut self, got: usize)
        ensures { self.old.same ≡ false → self.new.same ≡ false }
    {
        let told = self.number(LARGEST);
        self.expect(told == got);
    }

    // Bytes that must be told, all of them.
    pub fn equal(&mut self, got: &[u8])
        ensures { self.old.same ≡ false → self.new.same ≡ false }
    {
        let told = self.bytes(got.len());
        self.expect(told.length == got.len() && told.are(got));
    }

    // Whether the next words are so many '-', which expect nothing; then they are passed.
    fn untold(&mut self, words: usize) -> bool
        ensures { self.new.same ≡ self.old.same }
    {
        let mut past = *self;
        let all = (0..words).all(|_| past.word() == b"-".as_slice());
        if all {
            self.rest = past.rest;
        }
        all
    }

    // A number, or a '-'.
    pub fn count(&mut self, got: usize)
        ensures { self.old.same ≡ false → self.new.same ≡ false }
    {
        if !self.untold(1) {
            self.told(got);
        }
    }

    // Bytes, or five '-'.
    pub fn buffer(&mut self, got: &[u8])
        ensures { self.old.same ≡ false → self.new.same ≡ false }
    {
        if !self.untold(5) {
            self.equal(got);
        }
    }

    // The words NUMBER WRITTEN RUNS.
    pub fn answer(&mut self, got: Answer)
        ensures { self.old.same ≡ false → self.new.same ≡ false }
    {
        self.count(usize::from(got.number));
        self.count(got.written);
        self.count(got.runs);
    }
}
