// Bytes as five words tell them: LENGTH A B PLACE HEX.
ghost use Rattle.std.specs.Prelude.{◌<◌};

use trials::pattern::Pattern;

// So many bytes of the pattern, and from `place` on a byte for each pair of digits that there is room for.
#[derive(Clone, Copy)]
pub struct Bytes<'a> {
    pub length: usize,
    pub pattern: Pattern,
    pub place: usize,
    pub pairs: &'a [[u8; 2]],
}

// The value of a hexadecimal digit.
fn digit(c: u8) -> Option<u8> {
    match c {
        b'0'..=b'9' => Some(c - b'0'),
        b'a'..=b'f' => Some(c - b'a' + 10),
        _ => None,
    }
}

// Whether all are digits. Every one is looked at, also past one that is none, so that the compiler takes many at once.
pub fn are_digits(hex: &[u8]) -> bool {
    hex.iter().fold(true, |all, c| all & digit(*c).is_some())
}

// The byte of two digits; what is none counts as 0.
fn byte(pair: &[u8; 2]) -> u8 {
    let [high, low] = pair.map(|c| digit(c).unwrap_or(0));
    high << 4 | low
}

impl Bytes<'_> {
    // Lays them to the front of `into`: the pattern, and then the pairs over it, so that no byte costs a test of which of the two it is.
    #[inline(always)]
    pub fn lay(&self, into: &mut [u8]) {
        self.pattern.fill(into);
        let place = self.place.min(into.len());
        for (to, pair) in into[place..].iter_mut().zip(self.pairs) {
            *to = byte(pair);
        }
    }

    // Whether `got` is the front of them, in three stretches, each looked at to its end: the pairs, and the pattern before and behind them.
    #[inline(always)]
    pub fn are(&self, got: &[u8]) -> bool {
        let (before, rest) = got.split_at(self.place.min(got.len()));
        let pairs = &self.pairs[..self.pairs.len().min(rest.len())];
        let (told, behind) = rest.split_at(pairs.len());
        let same = told
            .iter()
            .zip(pairs)
            .fold(true, |same, (got, pair)| same & (*got == byte(pair)));
        same && self.pattern.is_in(before, 0)
            && self.pattern.is_in(behind, before.len() + told.len())
    }
}
