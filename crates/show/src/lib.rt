// What a person reads, as values that a format takes: a well's name, a year and a month, bytes, the place of a reading, and the answers of the
// library; and a message where nothing more can be done of one that was not taken. Serves the main job.
#![tactic(auto)]

mod answers;
mod dips;
mod quotes;

pub use answers::{Answered, Refused};
pub use dips::{Date, Name, Reading};
pub use quotes::{Hex, Quoted};
use std::fmt::Display;

// A message with a line end, to where what is wrong is told: there is no other place to tell that it did not take it.
pub fn tell<D: Display + Drop>(errors: &impl Print, message: D) {
    let _ = errors.println(message);
}
