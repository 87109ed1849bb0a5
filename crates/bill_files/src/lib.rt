// What it means that a file passes tests 2 to 38, and what such a file says: definitions in specs/, laws in proofs/, and no code.

#![tactic(auto)]
