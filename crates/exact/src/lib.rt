// Exact fractions and their rounding: definitions in specs/, laws in proofs/, no code.
#![tactic(auto)]
