// The words of a line, counted from 0: what stands between blanks.
ghost use Rattle.std.specs.Prelude.{◌≡◌, ◌≤◌, ◌<◌, length, MatchOption};
ghost use Rattle.std.specs.Iterator.{at_most};

use crate::places;
use crate::places::is_space;

// What is left of a line behind the words that came.
#[derive(Clone, Copy, Debug)]
pub struct Words<'a> {
    pub rest: &'a [u8],
}

impl<'a> Words<'a> {
    pub fn of(line: &'a [u8]) -> Self
        ensures { result.rest.now ≡ line.now }
    {
        Words { rest: line }
    }
}

impl<'a> Iterator for Words<'a> {
    type Item = &'a [u8];

    // No word is empty, and what is left behind it is shorter.
    ghost next_gives = { λ s word t. MatchOption word (length t.rest.now ≤ length s.rest.now) (λ w. (0 < length w.now) × (length t.rest.now < length s.rest.now)) };

    ghost remaining = { λ words. at_most (length words.rest.now) };

    fn next(&mut self) -> Option<&'a [u8]> {
        let (_, begun) = self
            .rest
            .split_at(places::first(self.rest, |b| !is_space(b)));
        let (word, rest) = begun.split_at(places::first(begun, is_space));
        self.rest = rest;
        if word.is_empty() { None } else { Some(word) }
    }
}

// The first k words, with what stands between them.
pub fn up_to(line: &[u8], k: usize) -> &[u8] {
    let mut words = Words::of(line);
    for _ in 0..k {
        let _ = words.next();
    }
    let end = line.len() - words.rest.len();
    &line[..end]
}
