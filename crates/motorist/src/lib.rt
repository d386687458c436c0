// What Keyak v2 is, in document 003's own layers, and its theorems: definitions in specs/, laws in proofs/; no code.
#![tactic(auto)]
