// The sessions of a file, line by line: the session in hand, and what agreed so far.
use crate::steps;
use decimal::LARGEST;
use keyak::{Lake, River};
use line_text::Lines;
use std::fmt;
use trials::tally::Tally;
use vectors::tallies::Tallies;
use vectors::words::Words;

// Only here do Lake and River part: a step is one generic function, and each match on this calls it at its type.
#[derive(Clone, Copy)]
enum Hand {
    Lake(Lake),
    River(River),
}

// A kind of call.
#[derive(Clone, Copy, Debug, PartialEq, Eq)]
pub enum Call {
    Start,
    Wrap,
    Unwrap,
    Permute,
}

// The calls of an instance, by kind.
#[derive(Clone, Copy, Debug, Default)]
pub struct Calls {
    pub start: Tally,
    pub wrap: Tally,
    pub unwrap: Tally,
    pub permute: Tally,
}

impl Calls {
    fn note(&mut self, call: Call, same: bool) {
        let tally = match call {
            Call::Start => &mut self.start,
            Call::Wrap => &mut self.wrap,
            Call::Unwrap => &mut self.unwrap,
            Call::Permute => &mut self.permute,
        };
        tally.note(same);
    }
}

#[derive(Clone, Copy)]
pub struct Run {
    hand: Hand,
    tallies: Tallies,
    sessions: usize,
    pub lake: Calls,
    pub river: Calls,
}

impl Run {
    // All lines of a file.
    pub fn of(file: &[u8]) -> Self {
        let mut run = Run {
            hand: Hand::Lake(Lake::unstarted()),
            tallies: Tallies::default(),
            sessions: 0,
            lake: Calls::default(),
            river: Calls::default(),
        };
        for line in Lines::of(file) {
            run.line(line.text);
        }
        run.tallies.end();
        run
    }

    // One line, by its first letter. A match on the letter, which comes from the file: there is no caller that could hand in the step.
    fn line(&mut self, line: &[u8]) {
        let words = Words::past_first(line);
        self.tallies.next_line();
        match line.first() {
            None | Some(b'#') => {}
            Some(b'l') => self.begin(words, Hand::Lake(Lake::unstarted())),
            Some(b'r') => self.begin(words, Hand::River(River::unstarted())),
            Some(b'h') => self.hold(words),
            Some(b's') => self.call(words, Call::Start),
            Some(b'w') => self.call(words, Call::Wrap),
            Some(b'u') => self.call(words, Call::Unwrap),
            Some(b'p') => self.call(words, Call::Permute),
            Some(b'e') => self.totals(words),
            Some(_) => self.tallies.other(false),
        }
    }

    // lake NUMBER, or river NUMBER: begins a session, with the unstarted record in hand.
    fn begin(&mut self, mut words: Words<'_>, hand: Hand) {
        words.number(LARGEST);
        self.hand = hand;
        self.sessions = self.sessions.wrapping_add(1);
        self.tallies.other(words.ends());
    }

    // hold ..: the record in hand is replaced. A match, since no closure is generic over the lanes, as a step is, and a trait for a step would be an
    // impl for each of two, to say what these two arms say.
    fn hold(&mut self, mut words: Words<'_>) {
        self.hand = match self.hand {
            Hand::Lake(session) => Hand::Lake(steps::hold(&mut words, session)),
            Hand::River(session) => Hand::River(steps::hold(&mut words, session)),
        };
        self.tallies.other(words.ends());
    }

    // A call, which is made and compared. A match, as in `hold`: no closure is generic over the lanes, and a trait for a step, with an impl for each
    // of two, would say what these two arms say.
    fn call(&mut self, mut words: Words<'_>, call: Call) {
        match self.hand {
            Hand::Lake(session) => {
                self.hand = Hand::Lake(steps::call(&mut words, call, session));
                self.lake.note(call, words.ends());
            }
            Hand::River(session) => {
                self.hand = Hand::River(steps::call(&mut words, call, session));
                self.river.note(call, words.ends());
            }
        }
        self.tallies.call(words.ends());
    }

    // end SESSIONS CALLS: the totals are to be those counted here.
    fn totals(&mut self, mut words: Words<'_>) {
        words.told(self.sessions);
        words.told(self.tallies.calls());
        self.tallies.totals(words.ends());
    }
}

impl fmt::Display for Run {
    fn fmt<W: fmt::Write>(&self, f: &mut fmt::Formatter<W>) -> fmt::Result {
        write!(f, "{} sessions, {}", self.sessions, self.tallies)
    }
}
