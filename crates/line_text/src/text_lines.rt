// The lines of a text, counted from 1.
ghost use Rattle.std.specs.Prelude.{◌≡◌, ◌==◌, ◌+◌, ◌^◌, ◌<◌, length, take, MatchOption};
ghost use Rattle.std.specs.List.{IsFirstMatchOrLen};
ghost use Rattle.std.specs.Iterator.{at_most};

use crate::places;

// A line by its number, without its end.
#[derive(Clone, Copy, Debug, PartialEq, Eq)]
pub struct Line<'a> {
    pub number: usize,
    pub text: &'a [u8],
}

// What is left of a text behind the lines that came, and how many these were.
#[derive(Clone, Copy, Debug)]
pub struct Lines<'a> {
    pub rest: &'a [u8],
    pub number: usize,
    ghost fits: { number + length rest.now < 2 ^ 64 },
}

impl<'a> Lines<'a> {
    // An empty rest behind the last line end is no line.
    pub fn of(text: &'a [u8]) -> Self
        ensures rest { result.rest.now ≡ text.now }
        ensures number { result.number ≡ 0 }
    {
        Lines {
            rest: text,
            number: 0,
        }
    }
}

impl<'a> Iterator for Lines<'a> {
    type Item = Line<'a>;

    // Each has the number after the one before it, and is what stands before the first line end of what was left, or all of it.
    ghost next_gives = { λ s line t. MatchOption line (length s.rest.now ≡ 0) (λ l. (l.number ≡ s.number + 1) × (t.number ≡ l.number) × (l.text.now ≡ take (length l.text.now) s.rest.now) × IsFirstMatchOrLen (λ b. b == 10) s.rest.now (length l.text.now) × (length t.rest.now < length s.rest.now)) };

    ghost remaining = { λ lines. at_most (length lines.rest.now) };

    fn next(&mut self) -> Option<Line<'a>> {
        if self.rest.is_empty() {
            return None;
        }
        let (text, behind) = self.rest.split_at(places::first(self.rest, |b| b == b'\n'));
        self.rest = behind.get(1..).unwrap_or(b"");
        self.number += 1;
        Some(Line {
            number: self.number,
            text,
        })
    }
}
