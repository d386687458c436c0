// The three demands at Lake and at River: those of `calls` at the two kinds of record: proofs/; no code.
#![tactic(auto)]
