// What the main job says where something is wrong, or worth a note: with its words and files, with a line, and with a month that was
// opened. Serves the main job.
#![tactic(auto)]

pub mod file;
pub mod line;
pub mod month;
mod words;
