// Whether the look at the numbers of a run, and at those around it, can fail: each number of the array is changed in turn.
use crate::run::Run;
use std::io;
use trials::tally::Tally;

// Whether a change of number i is seen.
fn is_seen(i: usize) -> bool {
    let before = Run::of([-1; 80]);
    let mut after = before;
    if let Some(number) = after.array.get_mut(i) {
        *number = 0;
    }
    before != after
}

// Like its fellow in sessions: what both do is `Tally::of`, and one function for both, of a text, the places and a closure, is no plainer.
pub fn tell(rt: &impl Print) -> io::Result<()> {
    let seen = Tally::of((0..80).map(is_seen)).agreed;
    println!(rt; "changes of a number in and around a lent run: {seen} of 80 seen")
}
