// A file of dips as one borehole's year: its months with their plain packets, what is told of the lines that do not stand, and of the names
// that the borehole goes by. Serves the main job.
#![tactic(auto)]

mod months;
mod names;
mod one_year;
mod reader;

pub use months::{Month, Year};
pub use names::Names;
pub use reader::{Found, read_dips};
