// Whether the look at the bytes around a lent part can fail: of an array with 16 bytes lent each byte is changed in turn.
use std::io;
use trials::tally::Tally;
use vectors::guard::{Guarded, TagArray};
use vectors::words::Words;

// Whether a change of byte i is seen.
fn is_seen(i: usize) -> bool {
    let mut array: TagArray = [0; 96];
    Guarded::read(&mut Words::past_first(b"tag 16 3 5 0 -"), &mut array);
    if let Some(byte) = array.get_mut(i) {
        *byte ^= 1;
    }
    !Guarded::of(&mut array, 16).is_kept()
}

// Of all changes those of the lent part alone are not seen.
// dip_vectors has its fellow: one function for both would take the text, the places and the closure, and do no more than these two lines.
pub fn tell(rt: &impl Print) -> io::Result<()> {
    let seen = Tally::of((0..96).map(is_seen)).agreed;
    println!(rt; "changes of a byte around a lent part: {seen} of 80 seen")
}
