// How a group is cut into blocks, and the four offset bytes of such a block.
ghost use Rattle.std.specs.Prelude.{◌≡◌, ◌||◌, ◌+◌, ◌≤◌, ◌<◌, ltb};
ghost use Rattle.plan.specs.Cut.{from_by, cut_by, Bytewise, offset_bytes};
ghost use Rattle.motorist.specs.Piston.{crypt_end};

use crate::Cut;
use rates::{ByteCount, Rates};

// How many bytes of text and of metadata a group takes in, at an instance's rates.
#[derive(Clone, Copy, Debug, PartialEq, Eq)]
pub struct Group {
    pub rates: Rates,
    pub text: ByteCount,
    pub meta: ByteCount,
}

impl Group {
    // Where metadata starts beside so much text that is left.
    fn inject_start(self, left: ByteCount) -> ByteCount
        ensures { result.0 ≡ from_by self.rates.text.0 left.0 }
    {
        if left == ByteCount(0) {
            left
        } else {
            self.rates.text
        }
    }

    // The block after `text` bytes of text and `meta` of metadata are done, which starts at byte `at` of it: it takes as much as fits.
    fn cut_at(self, at: ByteCount, text: ByteCount, meta: ByteCount) -> Cut
        requires { (at.0 ≤ self.rates.text.0) × (text.0 ≤ self.text.0) × (meta.0 ≤ self.meta.0) }
        ensures { result ≡ cut_by self.rates.text.0 self.rates.full.0 at.0 text.0 self.text.0 meta.0 self.meta.0 }
    {
        let rates = self.rates;
        let left = self.text - text;
        let from = self.inject_start(left);
        let k = left.min(rates.text - at);
        let q = (self.meta - meta).min(rates.full - from);
        Cut {
            at,
            text,
            textend: text + k,
            from,
            meta,
            metaend: meta + q,
        }
    }

    // The first block, whose text starts at byte `at` of it.
    pub fn first(self, at: ByteCount) -> Cut
        requires { at.0 ≤ self.rates.text.0 }
        ensures { result ≡ cut_by self.rates.text.0 self.rates.full.0 at.0 0 self.text.0 0 self.meta.0 }
    {
        self.cut_at(at, ByteCount(0), ByteCount(0))
    }

    // The block after this one.
    pub fn next(self, cut: Cut) -> Cut
        requires { (cut.textend.0 ≤ self.text.0) × (cut.metaend.0 ≤ self.meta.0) }
        ensures { result ≡ cut_by self.rates.text.0 self.rates.full.0 0 cut.textend.0 self.text.0 cut.metaend.0 self.meta.0 }
    {
        self.cut_at(ByteCount(0), cut.textend, cut.metaend)
    }

    // Whether a block after this one is left to do.
    pub fn more(self, cut: Cut) -> bool
        ensures { result ≡ (ltb cut.textend.0 self.text.0 || ltb cut.metaend.0 self.meta.0) }
    {
        cut.textend < self.text || cut.metaend < self.meta
    }
}

// One past the last of n bytes of text from `at` on; 0 if there is none.
fn crypt_end(at: ByteCount, n: ByteCount) -> ByteCount
    requires { at.0 + n.0 < 256 }
    ensures { (result.0 ≡ crypt_end at.0 n.0) × (result.0 < 256) }
{
    if n == ByteCount(0) { n } else { at + n }
}

impl Cut {
    // The four offset bytes of its block: EOM, crypt end, inject start, inject end.
    pub fn offsets(self, eom: u8) -> [u8; 4]
        requires { Bytewise self }
        ensures { result ≡ offset_bytes self eom }
    {
        let end = crypt_end(self.at, self.textend - self.text);
        let stop = self.from + (self.metaend - self.meta);
        [eom, end.as_byte(), self.from.as_byte(), stop.as_byte()]
    }
}
