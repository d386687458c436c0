// A word as a decimal number: digits alone, at least one. Serves the programs that read text; no public call.
#![tactic(auto)]

ghost use Rattle.std.specs.Prelude.{◌<◌, ◌≤◌, IfOk, IfSome};

// Why a word is no number.
#[derive(Clone, Copy, Debug, PartialEq, Eq)]
pub enum NotANumber {
    NotDigits,
    BeyondLimit,
}

// No limit is taken to be higher, so that one digit more never overflows.
pub const LARGEST: usize = 99999999999999;

// std's to_digit would answer a number of 32 bits, which no `From` takes to a usize.
fn digit(b: u8) -> Option<usize>
    ensures { IfSome result (λ d. d < 10) }
{
    if b.is_ascii_digit() {
        Some(usize::from(b - b'0'))
    } else {
        None
    }
}

// The number of a word, or `top` where it is larger. A byte that is no digit counts as ten, and is not refused: `nearest` promises a number for every
// word, and the programs that try vectors make their call with just this one.
fn capped(word: &[u8], top: usize) -> usize
    requires { top ≤ 100000000000000 }
    ensures { result ≤ top }
{
    let mut value = 0;
    for b in word {
        let more = 10 * value + digit(*b).unwrap_or(10);
        value = more.min(top);
    }
    value
}

// A word's number, of at most `most`. Not `str::parse`, which wants a `str` and takes a plus: `nearest` needs the loop anyway, and shares it.
pub fn read(word: &[u8], most: usize) -> Result<usize, NotANumber>
    ensures { IfOk result (λ n. n ≤ most) }
{
    if word.is_empty() || !word.iter().all(u8::is_ascii_digit) {
        return Err(NotANumber::NotDigits);
    }
    let top = most.min(LARGEST);
    let value = capped(word, top + 1);
    if top < value {
        return Err(NotANumber::BeyondLimit);
    }
    Ok(value)
}

// What a word is taken for by a program that goes on where it is no number: its number, or the limit, with ten for a byte that is no digit. No Option:
// `read` is the test, and vectors/words.rt, which asks it first, is to make the call all the same.
pub fn nearest(word: &[u8], most: usize) -> usize
    ensures { result ≤ most }
{
    capped(word, most.min(LARGEST))
}
