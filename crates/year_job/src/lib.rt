// The main job: one borehole's year of dips, read from a plain text file, sealed month by month with Lake or River, opened again on a
// second session and shown; then what must be refused. Arguments: lake or river, the file of dips, the key file, the nonce file.
// The table goes to standard output; what is wrong goes to one other place, which the caller names: standard error. What stops the job ends in "Nothing was sealed."
// The program year is this job on the sample year; year_cases shows what stops it before it seals, what it takes, and months that were opened
// and cannot be read.
#![tactic(auto)]

mod arguments;
mod attacks;
mod files;
mod job;
mod opened;
mod report;
mod sealing;
mod secrets;

pub use arguments::run;
pub use channel::Instance;
pub use job::{Words, run_on, run_packets};
