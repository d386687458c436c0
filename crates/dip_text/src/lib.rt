// A year of dips as plain text: a line a month, with the words well, borehole, year, month, datum and 0 to 31 readings.
// Serves the program above by one call, read_month.
#![tactic(auto)]

mod head;
mod levels;
mod month;
mod numbers;
mod trouble;

pub use month::read_month;
pub use trouble::{Field, Trouble};
