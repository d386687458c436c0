// The client's table: why a call refuses, each by the name of its line and with its number; what a call that is done counts; the choices that every
// instance shares. Every crate that refuses takes its refusals from here; the definitions take the numbers from specs/Numbers.antt.
#![tactic(auto)]

mod refusal;

ghost use Rattle.std.specs.Prelude.{◌≡◌};
ghost use Rattle.table.specs.Answers.{answer_of};
ghost use Rattle.table.specs.Choices.{is_riding, asked};

pub use refusal::{Refusal, number_of, refuse_if};

// The bytes of a tag at every instance, as an array's length names them.
pub const TAG_BYTES: usize = 16;

// What start, wrap and unwrap count where they are done: the bytes written, the permutation runs.
#[derive(Clone, Copy, Debug, PartialEq, Eq)]
pub struct Done {
    pub written: usize,
    pub runs: usize,
}

// The same in the client's numbers, as the second program's vectors tell it and the clauses of the calls read it (`answer_of`): README names it for who stores answers.
// A refusal counts 0 and 0.
#[derive(Clone, Copy, Debug, PartialEq, Eq)]
pub struct Answer {
    pub number: u8,
    pub written: usize,
    pub runs: usize,
}

impl From<Result<Done, Refusal>> for Answer {
    ghost from_gives = { λ r a. a ≡ answer_of r };

    fn from(answer: Result<Done, Refusal>) -> Answer
        ensures { result ≡ answer_of answer }
    {
        match answer {
            Ok(done) => Answer {
                number: 0,
                written: done.written,
                runs: done.runs,
            },
            Err(why) => Answer {
                number: why.number(),
                written: 0,
                runs: 0,
            },
        }
    }
}

// How far a session has come.
#[derive(Clone, Copy, Debug, PartialEq, Eq)]
pub enum Phase {
    Unstarted,
    Riding,
    Failed,
}

impl Phase {
    // Whether it is that of a session under way.
    pub fn is_riding(self) -> bool
        ensures { result ≡ is_riding self }
    {
        self == Phase::Riding
    }
}

// The start tag's use: none is asked for, it goes into the tag buffer, or the tag buffer's is compared with it.
#[derive(Clone, Copy, Debug, PartialEq, Eq)]
pub enum StartTag {
    None,
    Produced,
    Checked,
}

impl StartTag {
    // Whether a start tag is asked for.
    pub fn is_asked(self) -> bool
        ensures { result ≡ asked self }
    {
        self != StartTag::None
    }
}
