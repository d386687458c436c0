// The layout of vectors (docs/VECTORS.md): reading a file and the words of a line, comparing with them, the bytes around a
// lent buffer, and the tallies of what agreed.
// Serves the programs; no public call.
#![tactic(auto)]

mod bytes;
pub mod file;
pub mod guard;
pub mod tallies;
pub mod words;
