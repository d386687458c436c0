// What the programs that try the library share: the tally of what agreed, bytes by a pattern, and lanes as bytes.
// Serves those programs; no public call.
#![tactic(auto)]

pub mod lanes;
pub mod pattern;
pub mod tally;
